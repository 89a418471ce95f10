//! What reading and writing say together.

ghost use Rattle.std.specs.Prelude.{◌≡◌, ◌<◌, ◌^◌, ℕ, List, length};
ghost use Rattle.ram_pages.specs.Memory.{LiesIn, number_at};
ghost use Rattle.ram_pages.specs.Laws.{stored, AreApart};

/// A number that was written in so many bytes is read there, and all else is as before.
pub fn reads_what_was_written()
    ensures there { (ram : List ℕ) (at size value : ℕ) → LiesIn ram at size → value < 256 ^ size
        → number_at (stored ram at size value) at size ≡ value }
    ensures elsewhere { (ram : List ℕ) (at size value other n : ℕ)
        → LiesIn ram at size → LiesIn ram other n → AreApart at size other n
        → number_at (stored ram at size value) other n ≡ number_at ram other n }
    ensures length { (ram : List ℕ) (at size value : ℕ) → LiesIn ram at size
        → length (stored ram at size value) ≡ length ram }
{}
