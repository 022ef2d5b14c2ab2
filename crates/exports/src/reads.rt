#![tactic(auto, unfolding(crate::specs::Words::unless_short))]
// The reading calls of crate raft_log over words. Each tests that its slices are long enough, loads the log, calls, and writes the values last, so that a refusal writes nothing.
ghost use Rattle.std.specs.Prelude.{◌≡◌, [], ◌∷◌};
ghost use Rattle.units.specs.Refusals.{refusal_of};
ghost use Rattle.exports.specs.Words.{leaves};
ghost use Rattle.exports.specs.Reads.{term_leaves, first_index_leaves, last_index_leaves, last_term_leaves, commit_info_leaves, is_up_to_date_leaves, find_conflict_by_term_leaves, slice_leaves, entries_leaves, next_entries_since_leaves, has_next_entries_since_leaves};

use crate::bounds::store_bounds;
use crate::words::{LOG, PAIR, PART, SINGLE, TRIPLE, flag, load, long_enough, store_pair};
use units::refusal::Refusal;
use units::{Index, Term};

// The term at an index, 0 outside the log.
pub fn log_term(
    log: &[u64],
    settled: &[u64],
    pending: &[u64],
    i: u64,
    answer: &mut [u64],
) -> Result<(), Refusal>
    ensures { leaves (refusal_of result) (answer.new ∷ []) ≡ term_leaves log.now settled.now pending.now i answer.old }
{
    long_enough(log, LOG)?;
    long_enough(answer, SINGLE)?;
    answer[0] = load(log).term(settled, pending, Index(i))?.0;
    Ok(())
}

pub fn log_first_index(
    log: &[u64],
    settled: &[u64],
    pending: &[u64],
    answer: &mut [u64],
) -> Result<(), Refusal>
    ensures { leaves (refusal_of result) (answer.new ∷ []) ≡ first_index_leaves log.now settled.now pending.now answer.old }
{
    long_enough(log, LOG)?;
    long_enough(answer, SINGLE)?;
    answer[0] = load(log).first_index(settled, pending)?.0;
    Ok(())
}

pub fn log_last_index(
    log: &[u64],
    settled: &[u64],
    pending: &[u64],
    answer: &mut [u64],
) -> Result<(), Refusal>
    ensures { leaves (refusal_of result) (answer.new ∷ []) ≡ last_index_leaves log.now settled.now pending.now answer.old }
{
    long_enough(log, LOG)?;
    long_enough(answer, SINGLE)?;
    answer[0] = load(log).last_index(settled, pending)?.0;
    Ok(())
}

pub fn log_last_term(
    log: &[u64],
    settled: &[u64],
    pending: &[u64],
    answer: &mut [u64],
) -> Result<(), Refusal>
    ensures { leaves (refusal_of result) (answer.new ∷ []) ≡ last_term_leaves log.now settled.now pending.now answer.old }
{
    long_enough(log, LOG)?;
    long_enough(answer, SINGLE)?;
    answer[0] = load(log).last_term(settled, pending)?.0;
    Ok(())
}

// Values: committed, its term.
pub fn log_commit_info(
    log: &[u64],
    settled: &[u64],
    pending: &[u64],
    answer: &mut [u64],
) -> Result<(), Refusal>
    ensures { leaves (refusal_of result) (answer.new ∷ []) ≡ commit_info_leaves log.now settled.now pending.now answer.old }
{
    long_enough(log, LOG)?;
    long_enough(answer, PAIR)?;
    let (index, term) = load(log).commit_info(settled, pending)?;
    store_pair(answer, index.0, term.0);
    Ok(())
}

// Whether a log that ends with (i, t) is at least as up to date as this one.
pub fn log_is_up_to_date(
    log: &[u64],
    settled: &[u64],
    pending: &[u64],
    i: u64,
    t: u64,
    answer: &mut [u64],
) -> Result<(), Refusal>
    ensures { leaves (refusal_of result) (answer.new ∷ []) ≡ is_up_to_date_leaves log.now settled.now pending.now i t answer.old }
{
    long_enough(log, LOG)?;
    long_enough(answer, SINGLE)?;
    answer[0] = flag(load(log).is_up_to_date(settled, pending, Index(i), Term(t))?);
    Ok(())
}

// The largest index at most i whose term is at most t. Values: the index, 1 if a term goes with it, the term.
pub fn log_find_conflict_by_term(
    log: &[u64],
    settled: &[u64],
    pending: &[u64],
    i: u64,
    t: u64,
    answer: &mut [u64],
) -> Result<(), Refusal>
    ensures { leaves (refusal_of result) (answer.new ∷ []) ≡ find_conflict_by_term_leaves log.now settled.now pending.now i t answer.old }
{
    long_enough(log, LOG)?;
    long_enough(answer, TRIPLE)?;
    let (index, term) = load(log).find_conflict_by_term(settled, pending, Index(i), Term(t))?;
    answer[0] = index.0;
    answer[1] = flag(term.is_some());
    answer[2] = term.unwrap_or(Term(0)).0;
    Ok(())
}

// The records from low up to high, as far as one store holds them. Values: where (0: empty, 1: settled, 2: pending), first index, index after the last, first word in that store, how many words.
#[tactic(auto, using(crate::proofs::Parts::slice_sound), unfolding(crate::specs::Words::unless_short))]
pub fn log_slice(
    log: &[u64],
    settled: &[u64],
    pending: &[u64],
    low: u64,
    high: u64,
    answer: &mut [u64],
) -> Result<(), Refusal>
    ensures { leaves (refusal_of result) (answer.new ∷ []) ≡ slice_leaves log.now settled.now pending.now low high answer.old }
{
    long_enough(log, LOG)?;
    long_enough(answer, PART)?;
    let before = load(log);
    let bounds = before.slice_bounds(settled, pending, Index(low), Index(high))?;
    store_bounds(answer, before, settled, pending, bounds);
    Ok(())
}

// All records from i on, by the same values.
#[tactic(auto, using(crate::proofs::Parts::entries_sound), unfolding(crate::specs::Words::unless_short))]
pub fn log_entries(
    log: &[u64],
    settled: &[u64],
    pending: &[u64],
    i: u64,
    answer: &mut [u64],
) -> Result<(), Refusal>
    ensures { leaves (refusal_of result) (answer.new ∷ []) ≡ entries_leaves log.now settled.now pending.now i answer.old }
{
    long_enough(log, LOG)?;
    long_enough(answer, PART)?;
    let before = load(log);
    let bounds = before.entries_bounds(settled, pending, Index(i))?;
    store_bounds(answer, before, settled, pending, bounds);
    Ok(())
}

// The records after s that are committed and persisted, by the same values.
#[tactic(auto, using(crate::proofs::Parts::next_sound), unfolding(crate::specs::Words::unless_short))]
pub fn log_next_entries_since(
    log: &[u64],
    settled: &[u64],
    pending: &[u64],
    s: u64,
    answer: &mut [u64],
) -> Result<(), Refusal>
    ensures { leaves (refusal_of result) (answer.new ∷ []) ≡ next_entries_since_leaves log.now settled.now pending.now s answer.old }
{
    long_enough(log, LOG)?;
    long_enough(answer, PART)?;
    let before = load(log);
    let bounds = before.next_entries_bounds_since(settled, pending, Index(s))?;
    store_bounds(answer, before, settled, pending, bounds);
    Ok(())
}

// Whether there are such records.
pub fn log_has_next_entries_since(
    log: &[u64],
    settled: &[u64],
    pending: &[u64],
    s: u64,
    answer: &mut [u64],
) -> Result<(), Refusal>
    ensures { leaves (refusal_of result) (answer.new ∷ []) ≡ has_next_entries_since_leaves log.now settled.now pending.now s answer.old }
{
    long_enough(log, LOG)?;
    long_enough(answer, SINGLE)?;
    answer[0] = flag(load(log).has_next_entries_since(settled, pending, Index(s))?);
    Ok(())
}
