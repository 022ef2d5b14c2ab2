// The calls of crate raft_log over words. Each tests that its slices are long enough, loads the log, calls, and writes last, the state and the values, so that a refusal writes nothing.
ghost use Rattle.std.specs.Prelude.{◌≡◌, [], ◌∷◌};
ghost use Rattle.units.specs.Refusals.{refusal_of};
ghost use Rattle.exports.specs.Words.{leaves};
ghost use Rattle.exports.specs.LogCalls.{maybe_append_leaves};

use crate::words::{LOG, PAIR, load, long_enough, store, store_pair};
use units::refusal::Refusal;
use units::{Index, Term};

// AppendEntries at the receiver. Values: conflict, last.
#[tactic(auto, unfolding(crate::specs::Words::unless_short))]
pub fn log_maybe_append(
    log: &mut [u64],
    settled: &[u64],
    pending: &mut [u64],
    idx: u64,
    term: u64,
    commit: u64,
    run: &[u64],
    answer: &mut [u64],
) -> Result<(), Refusal>
    ensures { leaves (refusal_of result) (pending.new ∷ log.new ∷ answer.new ∷ []) ≡ maybe_append_leaves log.old settled.now pending.old idx term commit run.now answer.old }
{
    long_enough(log, LOG)?;
    long_enough(answer, PAIR)?;
    let before = load(log);
    let after = before.maybe_append(settled, pending, Index(idx), Term(term), Index(commit), run)?;
    store(log, after.log);
    store_pair(answer, after.conflict.0, after.last.0);
    Ok(())
}
