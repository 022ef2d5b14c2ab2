#![tactic(auto)]
// What every crate above counts in: log indices, terms, and the refusals by name; and how it copies words.
pub mod refusal;
pub mod words;

ghost use Rattle.std.specs.Prelude.{◌≡◌, min};
ghost use Rattle.units.specs.Units.{index_of, as_term};

// A log index. Its own type, so that no term can be handed where an index is wanted.
#[derive(Clone, Copy, Debug, PartialEq, Eq, PartialOrd, Ord)]
pub struct Index(pub u64);

impl Index {
    // The largest index of a record, so that the index after it is still a number.
    pub const LIMIT: u64 = u64::MAX - 1;

    // Any number: a call that is handed an index above the limit answers by its own rules.
    pub fn new(number: u64) -> Self
        ensures { result ≡ index_of number }
    {
        Self(number)
    }
}

// A leader's term. Its own type beside `Index`, as document 01 asks, though the two differ in the name alone.
#[derive(Clone, Copy, Debug, PartialEq, Eq, PartialOrd, Ord)]
pub struct Term(pub u64);

impl Term {
    pub fn new(number: u64) -> Self
        ensures { result ≡ as_term number }
    {
        Self(number)
    }
}

// The smaller of two indices: the library's `min`, under the name that its promise and edit have (PROMISES.md).
pub fn smaller(a: u64, b: u64) -> u64
    ensures { result ≡ min a b }
{
    a.min(b)
}
