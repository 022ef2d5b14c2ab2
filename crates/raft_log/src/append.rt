// What `maybe_append` and `append` decide, over shared slices: nothing is written here.
ghost use Rattle.std.specs.Prelude.{◌≡◌, ◌+◌, ◌-◌, ◌≤◌, min};
ghost use Rattle.raft_log.specs.State.{last_of};
ghost use Rattle.raft_log.specs.Append.{alike_before, outside, match_run, decide, maybe_append};
ghost use Rattle.raft_log.specs.Extend.{extend_from, append_run};

use crate::held::Held;
use crate::run::Run;
use crate::words::{room, run_index, same_terms};
use crate::{Appended, Log};
use units::Index;
use units::refusal::Refusal;

// How many records come before the first that differs. Each store is searched where the run's records would stand in it, the first `gap` of them in settled; past the last record all differ.
fn first_conflict(held: Held, run: Run) -> u64
    requires { (held.log.start.0 ≤ run.after) × (run.after ≤ last_of held.log) }
    ensures { result ≡ alike_before held.entry.log held.entry.settled.now held.entry.pending.now run.entry.after run.entry.words.now run.entry.count }
{
    let idx = run.after;
    let offset = held.log.offset.0;
    let known = run.count.min(held.last() - idx);
    if offset <= idx + 1 {
        return same_terms(held.pending, idx + 1 - offset, run.words, 0, known);
    }
    let at = idx - held.log.start.0;
    let gap = offset - 1 - idx;
    if known <= gap {
        return same_terms(held.settled, at, run.words, 0, known);
    }
    let k = same_terms(held.settled, at, run.words, 0, gap);
    if k < gap {
        return k;
    }
    gap + same_terms(held.pending, 0, run.words, gap, known - gap)
}

// Refusals 6 and 7, or the log after the message, where k records come before the first that differs.
#[tactic(auto, unfolding(crate::specs::Append::decide))]
fn decided(held: Held, run: Run, commit: u64, k: u64) -> Result<Appended, Refusal>
    ensures { result ≡ decide held.entry.log held.entry.pending.now run.entry.after commit run.entry.count k }
{
    let log = held.log;
    let last = run.after + run.count;
    let committed = Index(log.committed.0.max(commit.min(last)));
    if k >= run.count {
        return Ok(Appended {
            conflict: Index(0),
            last: Index(last),
            log: Log { committed, ..log },
        });
    }
    let conflict = run.after + 1 + k;
    if conflict <= log.committed.0 {
        return Err(Refusal::CutsCommitted);
    }
    let offset = log.offset.0.min(conflict);
    let count = last + 1 - offset;
    if room(held.pending) < count {
        return Err(Refusal::NoRoom);
    }
    Ok(Appended {
        conflict: Index(conflict),
        last: Index(last),
        log: Log {
            offset: Index(offset),
            count,
            committed,
            persisted: Index(log.persisted.0.min(conflict - 1)),
            ..log
        },
    })
}

// Previous term 0 and an index outside the log.
#[tactic(auto, unfolding(crate::specs::Append::outside))]
fn is_outside(held: Held, idx: u64, term: u64) -> bool
    ensures { result ≡ outside held.entry.log idx term }
{
    if term != 0 {
        return false;
    }
    if idx < held.log.start.0 {
        return true;
    }
    held.last() < idx
}

// Refusals 4 and 5, then those of the run's records.
#[tactic(auto, unfolding(crate::specs::Append::match_run))]
fn matched(held: Held, run: Run, term: u64, commit: u64) -> Result<Appended, Refusal>
    ensures { result ≡ match_run held.entry.log held.entry.settled.now held.entry.pending.now run.entry.after term commit run.entry.words.now run.entry.count }
{
    let idx = run.after;
    if is_outside(held, idx, term) {
        return Err(Refusal::OutsideLog);
    }
    if held.term(idx) != term {
        return Err(Refusal::Mismatch);
    }
    let k = first_conflict(held, run);
    decided(held, run, commit, k)
}

// The answer of `maybe_append`.
#[tactic(auto, using(crate::proofs::Appending::answer_run, crate::proofs::Appending::answer_on), unfolding(crate::specs::Append::maybe_append))]
pub fn maybe_append_answer(
    log: Log,
    settled: &[u64],
    pending: &[u64],
    idx: u64,
    term: u64,
    commit: u64,
    run: &[u64],
) -> Result<Appended, Refusal>
    ensures { result ≡ maybe_append log settled.now pending.now idx term commit run.now }
{
    let held = log.held(settled, pending)?;
    let run = Run::new(run, idx)?;
    matched(held, run, term, commit)
}

// Refusals 6, 8, 7 and 8, or the log after a run.
#[tactic(auto, unfolding(crate::specs::Extend::extend_from))]
fn extended(held: Held, run: Run) -> Result<(Index, Log), Refusal>
    requires { 1 ≤ run.count }
    ensures { result ≡ extend_from held.entry.log held.entry.pending.now (run.entry.after + 1) run.entry.count }
{
    let log = held.log;
    let first = run.after + 1;
    if first <= log.committed.0 {
        return Err(Refusal::CutsCommitted);
    }
    if held.last() + 1 < first {
        return Err(Refusal::OutOfRange);
    }
    let offset = log.offset.0.min(first);
    let count = first + run.count - offset;
    if room(held.pending) < count {
        return Err(Refusal::NoRoom);
    }
    if first <= log.persisted.0 {
        return Err(Refusal::OutOfRange);
    }
    let last = run.after + run.count;
    Ok((
        Index(last),
        Log {
            offset: Index(offset),
            count,
            ..log
        },
    ))
}

// The answer of `append`.
#[tactic(auto, using(crate::proofs::Extending::extend_run, crate::proofs::Extending::extend_on), unfolding(crate::specs::Extend::append_run))]
pub fn append_run_answer(
    log: Log,
    settled: &[u64],
    pending: &[u64],
    run: &[u64],
) -> Result<(Index, Log), Refusal>
    ensures { result ≡ append_run log settled.now pending.now run.now }
{
    let held = log.held(settled, pending)?;
    if run.len() == 0 {
        return Ok((Index(held.last()), log));
    }
    let first = run_index(run, 0);
    if first == 0 {
        return Err(Refusal::MisnumberedRun);
    }
    let run = Run::new(run, first - 1)?;
    extended(held, run)
}
