//! What the definitions say together.

ghost use Rattle.std.specs.Prelude.{ℕ, ◌<◌, ◌^◌};
ghost use Rattle.rv_csr.specs.Control.{Control};
ghost use Rattle.rv_csr.specs.Traps.{trapped};
ghost use Rattle.rv_csr.specs.Laws.{Restores, ReadsAsWritten};
ghost use Rattle.rv_csr.specs.declared.inputs.Inputs.{Inputs as AnInputs};
ghost use Rattle.rv_csr.specs.declared.mode.Mode.{Mode as AMode};

/// MRET after a trap's entry restores the mode and MIE.
pub fn return_undoes_entry()
    ensures { (c : Control) (mode : AMode) (pc cause value : ℕ)
        → Restores c mode (trapped c mode pc cause value) }
{}

/// A register that was written reads the writable bits of its word.
pub fn reads_what_was_written()
    ensures { (c : Control) (i : AnInputs) (v : ℕ) → v < 2 ^ 32 → ReadsAsWritten c i v }
{}
