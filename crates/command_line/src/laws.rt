//! The words that are read are those of the grammar.
ghost use Rattle.std.specs.Prelude.{◌≡◌, ◌⊎◌, ◌<◌, ◌≤◌, ◌^◌, ℕ, List, Some};
ghost use Rattle.std.specs.Fmt.{decimal};
ghost use Rattle.command_line.specs.Icount.{Icount, icount_of};
ghost use Rattle.command_line.specs.Number.{number_in};
ghost use Rattle.command_line.specs.Words.{reading_of, Reading, Bad, Early, IsBadLine};
ghost use Rattle.command_line.specs.Grammar.{IsIcount, IsLine, GoesOn, IsFirstBad};

/// Words are read as what they ask for exactly where they are an allowed line that asks for it.
pub fn line_law()
    ensures sound { (words : List (List ℕ))
        → IsBadLine (reading_of words) ⊎ IsLine words (reading_of words) }
    ensures complete { (words : List (List ℕ)) (meaning : Reading)
        → IsLine words meaning → reading_of words ≡ meaning }
{}

/// The word that is called bad is the first that no allowed line goes on with.
pub fn first_bad_word_law()
    ensures { (words : List (List ℕ)) (k : ℕ) → reading_of words ≡ Bad k → IsFirstBad words k }
{}

/// Where words are said to be missing, an allowed line goes on after those that are there.
pub fn missing_words_law()
    ensures { (words : List (List ℕ)) → reading_of words ≡ Early → GoesOn words }
{}

/// A value of `-icount` is read exactly where it is the settings that ask for this, in any order.
pub fn icount_law()
    ensures sound { (value : List ℕ) (asked : Icount)
        → icount_of value ≡ Some asked → IsIcount value asked }
    ensures complete { (value : List ℕ) (asked : Icount)
        → IsIcount value asked → icount_of value ≡ Some asked }
{}

/// A number is read from its own decimal digits alone, and only in the range.
pub fn number_law()
    ensures sound { (least most : ℕ) (word : List ℕ) (n : ℕ) → n < 2 ^ 64
        → number_in least most word ≡ Some n → (least ≤ n) × (n ≤ most) × (word ≡ decimal n) }
    ensures complete { (least most n : ℕ) → n < 2 ^ 64
        → least ≤ n → n ≤ most → number_in least most (decimal n) ≡ Some n }
{}
