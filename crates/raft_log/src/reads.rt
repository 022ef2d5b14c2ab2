// What the reading calls answer of a log in good state, and the parts of the stores.
ghost use Rattle.std.specs.Prelude.{◌≡◌, ◌≤◌, ◌<◌, Ok};
ghost use Rattle.raft_log.specs.State.{last_of};
ghost use Rattle.raft_log.specs.Look.{at_most, last_down, by_term_in};
ghost use Rattle.raft_log.specs.Slice.{in_store, slice_in, has_next, store_part};

use crate::held::Held;
use crate::words::{last_at_most, room};
use crate::{Bounds, Log};
use units::refusal::Refusal;
use units::{Index, Term};

impl Held<'_> {
    // The largest index at most i whose term is at most t.
    fn last_below(self, i: u64, t: u64) -> u64
        ensures { result ≡ last_down (at_most self.entry.log self.entry.settled.now self.entry.pending.now t) i }
    {
        for j in (1..=i).rev() {
            if self.term(j) <= t {
                return j;
            }
        }
        0
    }

    // The same of an index in the log, store by store: `last_below` asks at each index which store holds it.
    fn last_in_stores(self, i: u64, t: u64) -> u64
        requires { i ≤ last_of self.log }
        ensures { result ≡ last_down (at_most self.entry.log self.entry.settled.now self.entry.pending.now t) i }
    {
        let before = self.log.offset.0 - 1;
        if i <= before {
            return self.last_in_settled(i, t);
        }
        let k = last_at_most(self.pending, i - before, t);
        if 0 < k {
            return before + k;
        }
        self.last_in_settled(before, t)
    }

    // The same of an index before the pending records. At the start and below it `last_below` takes two steps at most, since below the start the term is 0.
    fn last_in_settled(self, i: u64, t: u64) -> u64
        requires { i < self.log.offset.0 }
        ensures { result ≡ last_down (at_most self.entry.log self.entry.settled.now self.entry.pending.now t) i }
    {
        let start = self.log.start.0;
        if i <= start {
            return self.last_below(i, t);
        }
        let k = last_at_most(self.settled, i - start, t);
        if 0 < k {
            return start + k;
        }
        self.last_below(start, t)
    }

    // That index and its term, or i with no term where i is beyond the last.
    #[tactic(auto, unfolding(crate::specs::Look::by_term_in))]
    pub fn by_term(self, i: u64, t: u64) -> (Index, Option<Term>)
        ensures { Ok result ≡ by_term_in self.entry.log self.entry.settled.now self.entry.pending.now i t }
    {
        if self.last() < i {
            return (Index(i), None);
        }
        let j = self.last_in_stores(i, t);
        (Index(j), Some(Term(self.term(j))))
    }

    // The bounds of the records from low up to high, or refusals 8 and 9.
    #[tactic(auto, unfolding(crate::specs::Slice::slice_in))]
    pub fn bounds(self, low: u64, high: u64) -> Result<Bounds, Refusal>
        ensures { result ≡ slice_in self.entry.log low high }
    {
        if low > high {
            return Err(Refusal::OutOfRange);
        }
        if low <= self.log.start.0 {
            return Err(Refusal::BelowFirst);
        }
        if high > self.last() + 1 {
            return Err(Refusal::OutOfRange);
        }
        Ok(in_store(self.log, low, high))
    }

    // Whether records after s are committed and persisted.
    #[tactic(auto, unfolding(crate::specs::Slice::has_next))]
    pub fn has_next(self, s: u64) -> bool
        ensures { result ≡ has_next self.entry.log s }
    {
        let log = self.log;
        let end = log.committed.0.min(log.persisted.0);
        if s == u64::MAX {
            return false;
        }
        (s + 1).max(log.start.0 + 1) < end + 1
    }
}

// A run from low, ending at high or at the store boundary.
#[tactic(auto, unfolding(crate::specs::Slice::in_store))]
pub fn in_store(log: Log, low: u64, high: u64) -> Bounds
    ensures { Ok result ≡ in_store log low high }
{
    let offset = log.offset.0;
    if low == high {
        return Bounds::Empty;
    }
    if low < offset {
        return Bounds::Settled {
            low: Index(low),
            high: Index(high.min(offset)),
        };
    }
    Bounds::Pending {
        low: Index(low),
        high: Index(high),
    }
}

// Words of a store: those of the records from low up to high, where the store's first record is at index `first`; none where it has not so many.
#[tactic(auto, unfolding(crate::specs::Slice::store_part))]
pub fn store_part(store: &[u64], first: u64, low: u64, high: u64) -> &[u64]
    ensures { result.now ≡ store_part store.now first low high }
{
    if low < first {
        return &store[..0];
    }
    if high < low {
        return &store[..0];
    }
    if high - first > room(store) {
        return &store[..0];
    }
    let from = (low - first) as usize * Log::WORDS;
    let to = (high - first) as usize * Log::WORDS;
    &store[from..to]
}
