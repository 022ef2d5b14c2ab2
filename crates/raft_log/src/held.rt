// A log that meets the state rules, with the stores that it was checked over.
ghost use Rattle.std.specs.Prelude.{◌≡◌, true, false, MatchResult};
ghost use Rattle.units.specs.declared.refusal.Refusal.TheVariants as refusal;
ghost use Rattle.raft_log.specs.State.{Good, broken, term_at, last_of};

use crate::Log;
use crate::state::state_ok;
use crate::words::store_term;
use units::refusal::Refusal;

// The numbers of the log, and the words of both stores. Made by the check alone, so that what the rules say is known of each.
#[derive(Clone, Copy)]
pub struct Held<'a> {
    pub log: Log,
    pub settled: &'a [u64],
    pub pending: &'a [u64],
    ghost good: { Good log settled.now pending.now },
}

impl Log {
    // The check that each call makes first: refusal 1, or the log over its stores.
    #[tactic(auto, using(crate::proofs::States::ok_good))]
    pub(crate) fn held<'a>(
        self,
        settled: &'a [u64],
        pending: &'a [u64],
    ) -> Result<Held<'a>, Refusal>
        ensures { MatchResult result (λ h. (broken self settled.now pending.now ≡ false) × (h.log ≡ self) × (h.settled.now ≡ settled.now) × (h.pending.now ≡ pending.now)) (λ e. (broken self settled.now pending.now ≡ true) × (e ≡ refusal.BrokenState)) }
    {
        if !state_ok(self, settled, pending) {
            return Err(Refusal::BrokenState);
        }
        Ok(Held {
            log: self,
            settled,
            pending,
        })
    }
}

impl Held<'_> {
    // The index of the last record, the start's where there is none.
    pub fn last(self) -> u64
        ensures { result ≡ last_of self.entry.log }
    {
        self.log.offset.0 + self.log.count - 1
    }

    // The term at an index, 0 outside the log.
    #[tactic(auto, unfolding(crate::specs::State::term_at))]
    pub fn term(self, i: u64) -> u64
        ensures { result ≡ term_at self.entry.log self.entry.settled.now self.entry.pending.now i }
    {
        let log = self.log;
        let start = log.start.0;
        let offset = log.offset.0;
        if i < start {
            return 0;
        }
        if i == start {
            return log.startterm.0;
        }
        if i < offset {
            return store_term(self.settled, i - start - 1);
        }
        if i - offset < log.count {
            return store_term(self.pending, i - offset);
        }
        0
    }
}
