#![tactic(auto)]
// The log of document 01 (raft_log.rs, log_unstable.rs): its state by value, its records in two lent stores.
// Ported from raft 0.7.0, Copyright 2019 TiKV Project Authors, Copyright 2015 The etcd Authors, Apache-2.0 (see NOTICE).
mod append;
mod held;
mod reads;
mod run;
mod state;
mod words;

ghost use Rattle.std.specs.Prelude.{◌≡◌, ◌+◌, ◌≤◌};
ghost use Rattle.raft_log.specs.Words.{room, store_term, first_from, zero_at};
ghost use Rattle.raft_log.specs.Append.{maybe_append, maybe_append_store};
ghost use Rattle.raft_log.specs.Extend.{append_run, append_run_store};
ghost use Rattle.raft_log.specs.Commit.{commit_to, applied_to, maybe_commit, maybe_persist};
ghost use Rattle.raft_log.specs.Settle.{stable_entries, stable_entries_store};
ghost use Rattle.raft_log.specs.Look.{look_term, first_index, last_index, last_term, find_conflict_by_term, is_up_to_date, commit_info};
ghost use Rattle.raft_log.specs.Slice.{slice_bounds, entries_bounds, has_next_entries_since, next_entries_bounds_since, store_part, part_of};
ghost use Rattle.raft_log.specs.Setup.{setup_ok, new_log};

use append::{append_run_answer, maybe_append_answer};
use units::refusal::Refusal;
use units::words::copy_at;
use units::{Index, Term};
use words::store_term;

// The state beside the stores: settled holds the records start + 1 to offset - 1, pending those from offset on.
#[derive(Clone, Copy, Debug, PartialEq, Eq)]
pub struct Log {
    pub start: Index,
    pub startterm: Term,
    pub offset: Index,
    pub count: u64,
    pub committed: Index,
    pub persisted: Index,
    pub applied: Index,
}

// What `maybe_append` answers: the first index that differed, 0 if none, the run's last, and the log as it is now.
#[derive(Clone, Copy, Debug, PartialEq, Eq)]
pub struct Appended {
    pub conflict: Index,
    pub last: Index,
    pub log: Log,
}

// Where a run of records stands: the indices from low up to, not including, high, in one store.
#[derive(Clone, Copy, Debug, PartialEq, Eq)]
pub enum Bounds {
    Empty,
    Settled { low: Index, high: Index },
    Pending { low: Index, high: Index },
}

// Each call is lent the stores one by one, since its promise and C name them so; inside they go with the log as `Held`.
impl Log {
    // Words of a record in a store: term, body.
    pub const WORDS: usize = 2;

    // Words of a record in a run: index, term, body.
    pub const RUN: usize = 3;

    // Set-up over a settled store that holds the records after start up to last.
    #[tactic(auto, using(crate::proofs::Setups::ok_sets_up, crate::proofs::Searching::found), unfolding(crate::specs::Setup::new_log))]
    pub fn new(
        start: Index,
        start_term: Term,
        last: Index,
        settled: &[u64],
        pending: &[u64],
    ) -> Result<Log, Refusal>
        ensures { result ≡ new_log start.0 start_term.0 last.0 settled.now }
    {
        if !setup_ok(start.0, start_term.0, last.0, settled) {
            return Err(Refusal::BrokenState);
        }
        let count = last.0 - start.0;
        if first_zero(settled, count) < count {
            return Err(Refusal::ZeroTerm);
        }
        Ok(Log {
            start,
            startterm: start_term,
            offset: Index(last.0 + 1),
            count: 0,
            committed: start,
            persisted: last,
            applied: start,
        })
    }

    // The term at an index, 0 outside the log.
    #[tactic(auto, unfolding(crate::specs::Look::look_term))]
    pub fn term(self, settled: &[u64], pending: &[u64], i: Index) -> Result<Term, Refusal>
        ensures { result ≡ look_term self settled.now pending.now i.0 }
    {
        let held = self.held(settled, pending)?;
        Ok(Term(held.term(i.0)))
    }

    #[tactic(auto, unfolding(crate::specs::Look::first_index))]
    pub fn first_index(self, settled: &[u64], pending: &[u64]) -> Result<Index, Refusal>
        ensures { result ≡ first_index self settled.now pending.now }
    {
        self.held(settled, pending)?;
        Ok(Index(self.start.0 + 1))
    }

    #[tactic(auto, unfolding(crate::specs::Look::last_index))]
    pub fn last_index(self, settled: &[u64], pending: &[u64]) -> Result<Index, Refusal>
        ensures { result ≡ last_index self settled.now pending.now }
    {
        let held = self.held(settled, pending)?;
        Ok(Index(held.last()))
    }

    #[tactic(auto, unfolding(crate::specs::Look::last_term))]
    pub fn last_term(self, settled: &[u64], pending: &[u64]) -> Result<Term, Refusal>
        ensures { result ≡ last_term self settled.now pending.now }
    {
        let held = self.held(settled, pending)?;
        Ok(Term(held.term(held.last())))
    }

    // The index and the term of the last committed record.
    #[tactic(auto, unfolding(crate::specs::Look::commit_info))]
    pub fn commit_info(self, settled: &[u64], pending: &[u64]) -> Result<(Index, Term), Refusal>
        ensures { result ≡ commit_info self settled.now pending.now }
    {
        let held = self.held(settled, pending)?;
        let committed = self.committed;
        Ok((committed, Term(held.term(committed.0))))
    }

    // Whether a log that ends with (i, t) is at least as up to date as this one.
    #[tactic(auto, unfolding(crate::specs::Look::is_up_to_date))]
    pub fn is_up_to_date(
        self,
        settled: &[u64],
        pending: &[u64],
        i: Index,
        t: Term,
    ) -> Result<bool, Refusal>
        ensures { result ≡ is_up_to_date self settled.now pending.now i.0 t.0 }
    {
        let held = self.held(settled, pending)?;
        let last = held.last();
        let term = held.term(last);
        if term < t.0 {
            return Ok(true);
        }
        if t.0 != term {
            return Ok(false);
        }
        Ok(last <= i.0)
    }

    // The largest index at most i whose term is at most t, with its term.
    #[tactic(auto, unfolding(crate::specs::Look::find_conflict_by_term))]
    pub fn find_conflict_by_term(
        self,
        settled: &[u64],
        pending: &[u64],
        i: Index,
        t: Term,
    ) -> Result<(Index, Option<Term>), Refusal>
        ensures { result ≡ find_conflict_by_term self settled.now pending.now i.0 t.0 }
    {
        let held = self.held(settled, pending)?;
        Ok(held.by_term(i.0, t.0))
    }

    // AppendEntries at the receiver: the answer, the log after it, and the pending store.
    pub fn maybe_append(
        self,
        settled: &[u64],
        pending: &mut [u64],
        idx: Index,
        term: Term,
        commit: Index,
        run: &[u64],
    ) -> Result<Appended, Refusal>
        ensures answer { result ≡ maybe_append self settled.now pending.old idx.0 term.0 commit.0 run.now }
        ensures store { pending.new ≡ maybe_append_store result pending.old idx.0 run.now }
    {
        let answer = maybe_append_answer(self, settled, pending, idx.0, term.0, commit.0, run)?;
        let Appended {
            conflict,
            last,
            log,
        } = answer;
        if conflict.0 == 0 {
            return Ok(answer);
        }
        let at = conflict.0 - log.offset.0;
        let from = conflict.0 - idx.0 - 1;
        let n = last.0 + 1 - conflict.0;
        words::put_run(pending, at, run, from, n);
        Ok(answer)
    }

    // The leader's own records, cut in from the run's first index.
    #[tactic(auto, using(crate::proofs::Extending::extend_cut))]
    pub fn append(
        self,
        settled: &[u64],
        pending: &mut [u64],
        run: &[u64],
    ) -> Result<(Index, Log), Refusal>
        ensures answer { result ≡ append_run self settled.now pending.old run.now }
        ensures store { pending.new ≡ append_run_store result pending.old run.now }
    {
        let (last, log) = append_run_answer(self, settled, pending, run)?;
        if run.len() == 0 {
            return Ok((last, log));
        }
        let at = words::run_index(run, 0) - log.offset.0;
        let n = words::run_count(run);
        words::put_run(pending, at, run, 0, n);
        Ok((last, log))
    }

    // Committed is i, where it was below.
    #[tactic(auto, unfolding(crate::specs::Commit::commit_to))]
    pub fn commit_to(self, settled: &[u64], pending: &[u64], i: Index) -> Result<Log, Refusal>
        ensures { result ≡ commit_to self settled.now pending.now i.0 }
    {
        let held = self.held(settled, pending)?;
        if i.0 <= self.committed.0 {
            return Ok(self);
        }
        if held.last() < i.0 {
            return Err(Refusal::OutOfRange);
        }
        Ok(Log {
            committed: i,
            ..self
        })
    }

    // Commits i where it is a record of term t above committed.
    #[tactic(auto, unfolding(crate::specs::Commit::maybe_commit))]
    pub fn maybe_commit(
        self,
        settled: &[u64],
        pending: &[u64],
        i: Index,
        t: Term,
    ) -> Result<Option<Log>, Refusal>
        ensures { result ≡ maybe_commit self settled.now pending.now i.0 t.0 }
    {
        let held = self.held(settled, pending)?;
        if i.0 <= self.committed.0 {
            return Ok(None);
        }
        if held.last() < i.0 {
            return Ok(None);
        }
        if held.term(i.0) != t.0 {
            return Ok(None);
        }
        Ok(Some(Log {
            committed: i,
            ..self
        }))
    }

    // Applied is i; 0 changes nothing.
    #[tactic(auto, unfolding(crate::specs::Commit::applied_to))]
    pub fn applied_to(self, settled: &[u64], pending: &[u64], i: Index) -> Result<Log, Refusal>
        ensures { result ≡ applied_to self settled.now pending.now i.0 }
    {
        self.held(settled, pending)?;
        if i.0 == 0 {
            return Ok(self);
        }
        if self.committed.0.min(self.persisted.0) < i.0 {
            return Err(Refusal::OutOfRange);
        }
        if i.0 < self.applied.0 {
            return Err(Refusal::OutOfRange);
        }
        Ok(Log { applied: i, ..self })
    }

    // Persisted is i where it is a settled record of term t above persisted.
    #[tactic(auto, unfolding(crate::specs::Commit::maybe_persist))]
    pub fn maybe_persist(
        self,
        settled: &[u64],
        pending: &[u64],
        i: Index,
        t: Term,
    ) -> Result<Option<Log>, Refusal>
        ensures { result ≡ maybe_persist self settled.now pending.now i.0 t.0 }
    {
        self.held(settled, pending)?;
        if i.0 <= self.persisted.0 {
            return Ok(None);
        }
        if self.offset.0 <= i.0 {
            return Ok(None);
        }
        if store_term(settled, i.0 - self.start.0 - 1) != t.0 {
            return Ok(None);
        }
        Ok(Some(Log {
            persisted: i,
            ..self
        }))
    }

    // Pending records that were written go over to the settled ones.
    #[tactic(auto, using(crate::proofs::Settling::settle_room))]
    pub fn stable_entries(
        self,
        settled: &mut [u64],
        pending: &[u64],
        i: Index,
        t: Term,
    ) -> Result<Log, Refusal>
        ensures answer { result ≡ stable_entries self settled.old pending.now i.0 t.0 }
        ensures store { settled.new ≡ stable_entries_store result self settled.old pending.now }
    {
        let after = stable_entries_answer(self, settled, pending, i.0, t.0)?;
        let at = (self.offset.0 - 1 - self.start.0) as usize;
        let n = self.count as usize;
        copy_at(settled, at * Log::WORDS, &pending[..n * Log::WORDS]);
        Ok(after)
    }

    // The bounds of the records from low up to high, or the refusal.
    #[tactic(auto, unfolding(crate::specs::Slice::slice_bounds))]
    pub fn slice_bounds(
        self,
        settled: &[u64],
        pending: &[u64],
        low: Index,
        high: Index,
    ) -> Result<Bounds, Refusal>
        ensures { result ≡ slice_bounds self settled.now pending.now low.0 high.0 }
    {
        let held = self.held(settled, pending)?;
        held.bounds(low.0, high.0)
    }

    // The records themselves: a part of the store that holds them, empty where the bounds are refused. It and `entries` and `next_entries_since` are three names of the crate over `part`.
    pub fn slice<'a>(
        self,
        settled: &'a [u64],
        pending: &'a [u64],
        low: Index,
        high: Index,
    ) -> &'a [u64]
        ensures { result.now ≡ part_of (slice_bounds self settled.now pending.now low.0 high.0) self settled.now pending.now }
    {
        let bounds = self.slice_bounds(settled, pending, low, high);
        part(self, settled, pending, bounds)
    }

    // All records from i on, as far as one store holds them.
    #[tactic(auto, unfolding(crate::specs::Slice::entries_bounds))]
    pub fn entries_bounds(
        self,
        settled: &[u64],
        pending: &[u64],
        i: Index,
    ) -> Result<Bounds, Refusal>
        ensures { result ≡ entries_bounds self settled.now pending.now i.0 }
    {
        let held = self.held(settled, pending)?;
        let last = held.last();
        if last < i.0 {
            return Ok(Bounds::Empty);
        }
        held.bounds(i.0, last + 1)
    }

    pub fn entries<'a>(self, settled: &'a [u64], pending: &'a [u64], i: Index) -> &'a [u64]
        ensures { result.now ≡ part_of (entries_bounds self settled.now pending.now i.0) self settled.now pending.now }
    {
        let bounds = self.entries_bounds(settled, pending, i);
        part(self, settled, pending, bounds)
    }

    // Whether records after s are committed and persisted.
    #[tactic(auto, unfolding(crate::specs::Slice::has_next_entries_since))]
    pub fn has_next_entries_since(
        self,
        settled: &[u64],
        pending: &[u64],
        s: Index,
    ) -> Result<bool, Refusal>
        ensures { result ≡ has_next_entries_since self settled.now pending.now s.0 }
    {
        let held = self.held(settled, pending)?;
        Ok(held.has_next(s.0))
    }

    // Those records, as far as one store holds them.
    #[tactic(auto, unfolding(crate::specs::Slice::next_entries_bounds_since))]
    pub fn next_entries_bounds_since(
        self,
        settled: &[u64],
        pending: &[u64],
        s: Index,
    ) -> Result<Bounds, Refusal>
        ensures { result ≡ next_entries_bounds_since self settled.now pending.now s.0 }
    {
        let held = self.held(settled, pending)?;
        if !held.has_next(s.0) {
            return Ok(Bounds::Empty);
        }
        let low = (s.0 + 1).max(self.start.0 + 1);
        let high = self.committed.0.min(self.persisted.0) + 1;
        Ok(reads::in_store(self, low, high))
    }

    pub fn next_entries_since<'a>(
        self,
        settled: &'a [u64],
        pending: &'a [u64],
        s: Index,
    ) -> &'a [u64]
        ensures { result.now ≡ part_of (next_entries_bounds_since self settled.now pending.now s.0) self settled.now pending.now }
    {
        let bounds = self.next_entries_bounds_since(settled, pending, s);
        part(self, settled, pending, bounds)
    }
}

// The part that the bounds name.
#[tactic(auto, unfolding(crate::specs::Slice::part_of))]
fn part<'a>(
    log: Log,
    settled: &'a [u64],
    pending: &'a [u64],
    bounds: Result<Bounds, Refusal>,
) -> &'a [u64]
    ensures { result.now ≡ part_of bounds log settled.now pending.now }
{
    match bounds {
        Ok(Bounds::Settled { low, high }) => settled_part(settled, log.start.0, low.0, high.0),
        Ok(Bounds::Pending { low, high }) => reads::store_part(
            pending,
            log.offset.0,
            low.0,
            high.0,
        ),
        Ok(Bounds::Empty) | Err(_) => &pending[..0],
    }
}

// Settled's first record is the one after the start.
#[tactic(auto, unfolding(crate::specs::Slice::store_part))]
fn settled_part(settled: &[u64], start: u64, low: u64, high: u64) -> &[u64]
    ensures { result.now ≡ store_part settled.now (start + 1) low high }
{
    if start == u64::MAX {
        return &settled[..0];
    }
    reads::store_part(settled, start + 1, low, high)
}

// What set-up is handed meets the state rules.
#[tactic(auto, unfolding(crate::specs::Setup::setup_ok))]
fn setup_ok(start: u64, start_term: u64, last: u64, settled: &[u64]) -> bool
    ensures { result ≡ setup_ok start start_term last settled.now }
{
    if !state::both_zero_or_none(start, start_term) {
        return false;
    }
    if last < start {
        return false;
    }
    if last > Index::LIMIT {
        return false;
    }
    last - start <= words::room(settled)
}

// The first of the n records of a store whose term is 0, n where none is.
fn first_zero(store: &[u64], n: u64) -> u64
    requires { n ≤ room store.now }
    ensures { result ≡ first_from (zero_at (store_term store.now)) 0 n }
{
    (0..n).find(|&k| store_term(store, k) == 0).unwrap_or(n)
}

// Refusals 1, 7 and 10 of `stable_entries`, or the log after it.
#[tactic(auto, unfolding(crate::specs::Settle::stable_entries))]
fn stable_entries_answer(
    log: Log,
    settled: &[u64],
    pending: &[u64],
    i: u64,
    t: u64,
) -> Result<Log, Refusal>
    ensures { result ≡ stable_entries log settled.now pending.now i t }
{
    let held = log.held(settled, pending)?;
    let last = held.last();
    if words::room(settled) < last - log.start.0 {
        return Err(Refusal::NoRoom);
    }
    if log.count == 0 {
        return Err(Refusal::NotPending);
    }
    if i != last {
        return Err(Refusal::NotPending);
    }
    if held.term(i) != t {
        return Err(Refusal::NotPending);
    }
    Ok(Log {
        offset: Index(last + 1),
        count: 0,
        ..log
    })
}
