// The refusals of document 01, each once, under its name; `number` gives the number of the document's table.
ghost use Rattle.std.specs.Prelude.{◌≡◌};
ghost use Rattle.units.specs.Refusals.{number_of, refusal_of};

// Why a call refused. A refusal is the number alone where words are all that passes, and changes nothing.
#[derive(Clone, Copy, Debug, PartialEq, Eq)]
pub enum Refusal {
    // State rules or store lengths broken.
    BrokenState = 1,
    // A run that is not of whole records, or whose indices don't rise by one, or that ends above the limit.
    MisnumberedRun = 2,
    // A zero term in a run, or in settled at set-up.
    ZeroTerm = 3,
    // Previous term 0 and an index outside the log.
    OutsideLog = 4,
    // The previous record doesn't match.
    Mismatch = 5,
    // A conflict, or the start of an append, at or below committed.
    CutsCommitted = 6,
    // No room.
    NoRoom = 7,
    // An argument beyond what the log or its bounds allow.
    OutOfRange = 8,
    // A low bound below the first index.
    BelowFirst = 9,
    // Nothing is pending, or another last record.
    NotPending = 10,
    // A full window.
    WindowFull = 11,
    // Over the limit of voters or rows, or a repeated id among them.
    BrokenSet = 12,
    // Window state broken.
    BrokenWindow = 13,
}

impl Refusal {
    // Its number in the table.
    pub fn number(self) -> u64
        ensures { result ≡ number_of self }
    {
        self as u64
    }
}

// What a check found, where words are all that passes: 0, or the refusal's number.
pub fn code(check: Result<(), Refusal>) -> u64
    ensures { result ≡ refusal_of check }
{
    match check {
        Ok(()) => 0,
        Err(refusal) => refusal.number(),
    }
}
