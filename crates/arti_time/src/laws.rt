// Laws of the texts of moments and spans.
ghost use Rattle.std.specs.Prelude.{◌≡◌, ◌↔◌, ℤ, ℕ, List, Some};
ghost use Rattle.arti_rows.specs.Moments.{IsMoment};
ghost use Rattle.arti_time.specs.Printed.{Prints, printed};
ghost use Rattle.arti_time.specs.Dates.{ReadsDate};
ghost use Rattle.arti_time.specs.DateReader.{date_of};
ghost use Rattle.arti_time.specs.Spans.{ReadsSpan, span_of};

/// What is printed of a moment writes its date and time in UTC, and it is the only text that does.
pub fn printed_writes_the_moment()
    ensures writes { (m : ℤ) → IsMoment m → Prints m (printed m) }
    ensures only { (m : ℤ) (text : List ℕ) → IsMoment m → Prints m text → text ≡ printed m }
{}

/// `date_of` gives the moment that a text means, so a text means one moment at most.
pub fn dates_are_read_as_written()
    ensures { (text : List ℕ) (m : ℤ) → (date_of text ≡ Some m) ↔ ReadsDate text m }
{}

/// What is printed of a moment is read back as the moment.
pub fn printed_moments_are_read_back()
    ensures { (m : ℤ) → IsMoment m → date_of (printed m) ≡ Some m }
{}

/// `span_of` gives the milliseconds that a text means, so a text means one number at most.
pub fn spans_are_read_as_written()
    ensures { (text : List ℕ) (n : ℕ) → (span_of text ≡ Some n) ↔ ReadsSpan text n }
{}
