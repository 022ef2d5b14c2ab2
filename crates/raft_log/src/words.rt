// The words of a record: where they stand in a store and in a run. The leaf under both stores (log_unstable.rs and the crate's Storage).
ghost use Rattle.std.specs.Prelude.{◌≡◌, ◌+◌, ◌*◌, ◌≤◌, ◌<◌, length};
ghost use Rattle.raft_log.specs.Words.{run_words, room, store_term, run_count, run_index, run_term, record_of, put_record, put_run, first_from, other_term};
ghost use Rattle.raft_log.specs.Look.{last_down, record_at_most};

use crate::Log;

// How many whole records a store has room for.
pub fn room(store: &[u64]) -> u64
    ensures { result ≡ room store.now }
{
    (store.len() / Log::WORDS) as u64
}

// The term of record k of a store.
pub fn store_term(store: &[u64], k: u64) -> u64
    requires { k < room store.now }
    ensures { result ≡ store_term store.now k }
{
    let at = k as usize * Log::WORDS;
    store[at]
}

// How many whole records a run has: `room` by the other width, which a const parameter would put at each of the calls.
pub fn run_count(run: &[u64]) -> u64
    ensures { result ≡ run_count run.now }
{
    (run.len() / Log::RUN) as u64
}

// The index and the term of record k of a run: the index is there before the run is known to be whole.
pub fn run_index(run: &[u64], k: u64) -> u64
    requires { k * run_words < length run.now }
    ensures { result ≡ run_index run.now k }
{
    let at = k as usize * Log::RUN;
    run[at]
}

pub fn run_term(run: &[u64], k: u64) -> u64
    requires { k < run_count run.now }
    ensures { result ≡ run_term run.now k }
{
    let at = k as usize * Log::RUN + 1;
    run[at]
}

// Record k of a run put in place of record `at` of a store. All words are read before any is stored, so that they can move at once.
fn put_record(store: &mut [u64], at: u64, run: &[u64], k: u64)
    requires at_in_store { at < room store.old }
    requires k_in_run { k < run_count run.now }
    ensures { store.new ≡ put_record store.old at (record_of run.now k) }
{
    let to = at as usize * Log::WORDS;
    let from = k as usize * Log::RUN;
    let term = run[from + 1];
    let body = run[from + 2];
    store[to] = term;
    store[to + 1] = body;
}

// The n records of a run from record k on put in place of a store's from record `at` on.
pub fn put_run(store: &mut [u64], at: u64, run: &[u64], k: u64, n: u64)
    requires in_store { at + n ≤ room store.old }
    requires in_run { k + n ≤ run_count run.now }
    ensures { store.new ≡ put_run store.old at run.now k n }
{
    for i in 0..n {
        put_record(store, at + i, run, k + i);
    }
}

// How many of the n records of a run from record k on, one after the other, have the terms of a store's from record `at` on.
pub fn same_terms(store: &[u64], at: u64, run: &[u64], k: u64, n: u64) -> u64
    requires in_store { at + n ≤ room store.now }
    requires in_run { k + n ≤ run_count run.now }
    ensures { result ≡ first_from (other_term store.now at run.now k) 0 n }
{
    // Not `find`, as in `first_zero`: an append would run up to 11 instructions more.
    for i in 0..n {
        if run_term(run, k + i) != store_term(store, at + i) {
            return i;
        }
    }
    n
}

// How many of the first n records of a store come up to the last whose term is at most t, 0 where none is.
pub fn last_at_most(store: &[u64], n: u64, t: u64) -> u64
    requires { n ≤ room store.now }
    ensures { result ≡ last_down (record_at_most store.now t) n }
{
    for k in (0..n).rev() {
        if store_term(store, k) <= t {
            return k + 1;
        }
    }
    0
}
