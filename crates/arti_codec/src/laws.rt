// What follows from the format alone.
ghost use Rattle.std.specs.Prelude.{◌≡◌, ℕ, List};
ghost use Rattle.arti_rows.specs.declared.edits.Change.{Change};
ghost use Rattle.arti_codec.specs.ChangeBytes.{ChangeBytes};

/// Different changes have different bytes.
pub fn bytes_are_of_one_change()
    ensures { (bytes : List ℕ) (c d : Change) → ChangeBytes bytes c → ChangeBytes bytes d → c ≡ d }
{}
