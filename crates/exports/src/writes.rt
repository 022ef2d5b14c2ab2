#![tactic(auto, unfolding(crate::specs::Words::unless_short))]
// The calls of crate raft_log that write the log, besides `log_maybe_append`, over words. Each tests that its slices are long enough, loads the log, calls, and writes last.
ghost use Rattle.std.specs.Prelude.{◌≡◌, [], ◌∷◌};
ghost use Rattle.units.specs.Refusals.{refusal_of};
ghost use Rattle.exports.specs.Words.{leaves};
ghost use Rattle.exports.specs.LogCalls.{new_log_leaves, append_leaves, commit_to_leaves, maybe_commit_leaves, applied_to_leaves, maybe_persist_leaves, stable_entries_leaves};

use crate::words::{LOG, SINGLE, load, long_enough, store, store_decided};
use raft_log::Log;
use units::refusal::Refusal;
use units::{Index, Term};

// Set-up: the state of a new log over its two stores.
pub fn log_new(
    start: u64,
    start_term: u64,
    last: u64,
    settled: &[u64],
    pending: &[u64],
    log: &mut [u64],
) -> Result<(), Refusal>
    ensures { leaves (refusal_of result) (log.new ∷ []) ≡ new_log_leaves start start_term last settled.now log.old }
{
    long_enough(log, LOG)?;
    let after = Log::new(
        Index(start),
        Term(start_term),
        Index(last),
        settled,
        pending,
    )?;
    store(log, after);
    Ok(())
}

// The leader's own records. Value: last.
pub fn log_append(
    log: &mut [u64],
    settled: &[u64],
    pending: &mut [u64],
    run: &[u64],
    answer: &mut [u64],
) -> Result<(), Refusal>
    ensures { leaves (refusal_of result) (pending.new ∷ log.new ∷ answer.new ∷ []) ≡ append_leaves log.old settled.now pending.old run.now answer.old }
{
    long_enough(log, LOG)?;
    long_enough(answer, SINGLE)?;
    let (last, after) = load(log).append(settled, pending, run)?;
    store(log, after);
    answer[0] = last.0;
    Ok(())
}

// Committed is i, where it was below.
pub fn log_commit_to(
    log: &mut [u64],
    settled: &[u64],
    pending: &[u64],
    i: u64,
) -> Result<(), Refusal>
    ensures { leaves (refusal_of result) (log.new ∷ []) ≡ commit_to_leaves log.old settled.now pending.now i }
{
    long_enough(log, LOG)?;
    let after = load(log).commit_to(settled, pending, Index(i))?;
    store(log, after);
    Ok(())
}

// Commits i where it is a record of term t above committed. Value: 1 for yes, 0 for no.
pub fn log_maybe_commit(
    log: &mut [u64],
    settled: &[u64],
    pending: &[u64],
    i: u64,
    t: u64,
    answer: &mut [u64],
) -> Result<(), Refusal>
    ensures { leaves (refusal_of result) (log.new ∷ answer.new ∷ []) ≡ maybe_commit_leaves log.old settled.now pending.now i t answer.old }
{
    long_enough(log, LOG)?;
    long_enough(answer, SINGLE)?;
    let decided = load(log).maybe_commit(settled, pending, Index(i), Term(t))?;
    store_decided(log, answer, decided);
    Ok(())
}

// Applied is i; 0 changes nothing.
pub fn log_applied_to(
    log: &mut [u64],
    settled: &[u64],
    pending: &[u64],
    i: u64,
) -> Result<(), Refusal>
    ensures { leaves (refusal_of result) (log.new ∷ []) ≡ applied_to_leaves log.old settled.now pending.now i }
{
    long_enough(log, LOG)?;
    let after = load(log).applied_to(settled, pending, Index(i))?;
    store(log, after);
    Ok(())
}

// Persisted is i where it is a settled record of term t above persisted. Value: 1 for yes, 0 for no.
pub fn log_maybe_persist(
    log: &mut [u64],
    settled: &[u64],
    pending: &[u64],
    i: u64,
    t: u64,
    answer: &mut [u64],
) -> Result<(), Refusal>
    ensures { leaves (refusal_of result) (log.new ∷ answer.new ∷ []) ≡ maybe_persist_leaves log.old settled.now pending.now i t answer.old }
{
    long_enough(log, LOG)?;
    long_enough(answer, SINGLE)?;
    let decided = load(log).maybe_persist(settled, pending, Index(i), Term(t))?;
    store_decided(log, answer, decided);
    Ok(())
}

// Pending records that were written go over to the settled ones.
pub fn log_stable_entries(
    log: &mut [u64],
    settled: &mut [u64],
    pending: &[u64],
    i: u64,
    t: u64,
) -> Result<(), Refusal>
    ensures { leaves (refusal_of result) (settled.new ∷ log.new ∷ []) ≡ stable_entries_leaves log.old settled.old pending.now i t }
{
    long_enough(log, LOG)?;
    let after = load(log).stable_entries(settled, pending, Index(i), Term(t))?;
    store(log, after);
    Ok(())
}
