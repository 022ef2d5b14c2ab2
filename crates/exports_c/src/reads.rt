// The calls of `exports::reads`, for C.
ghost use Rattle.std.specs.Prelude.{◌≡◌, [], ◌∷◌};
ghost use Rattle.exports.specs.Words.{leaves};
ghost use Rattle.exports.specs.Reads.{term_leaves, first_index_leaves, last_index_leaves, last_term_leaves, commit_info_leaves, is_up_to_date_leaves, find_conflict_by_term_leaves, slice_leaves, entries_leaves, next_entries_since_leaves, has_next_entries_since_leaves};

use units::refusal::code;

// The term at an index, 0 outside the log.
#[unsafe(no_mangle)]
pub extern "C" fn log_term(
    log: &[u64],
    settled: &[u64],
    pending: &[u64],
    i: u64,
    answer: &mut [u64],
) -> u64
    ensures { leaves result (answer.new ∷ []) ≡ term_leaves log.now settled.now pending.now i answer.old }
{
    code(exports::reads::log_term(log, settled, pending, i, answer))
}

#[unsafe(no_mangle)]
pub extern "C" fn log_first_index(
    log: &[u64],
    settled: &[u64],
    pending: &[u64],
    answer: &mut [u64],
) -> u64
    ensures { leaves result (answer.new ∷ []) ≡ first_index_leaves log.now settled.now pending.now answer.old }
{
    code(exports::reads::log_first_index(log, settled, pending, answer))
}

#[unsafe(no_mangle)]
pub extern "C" fn log_last_index(
    log: &[u64],
    settled: &[u64],
    pending: &[u64],
    answer: &mut [u64],
) -> u64
    ensures { leaves result (answer.new ∷ []) ≡ last_index_leaves log.now settled.now pending.now answer.old }
{
    code(exports::reads::log_last_index(log, settled, pending, answer))
}

#[unsafe(no_mangle)]
pub extern "C" fn log_last_term(
    log: &[u64],
    settled: &[u64],
    pending: &[u64],
    answer: &mut [u64],
) -> u64
    ensures { leaves result (answer.new ∷ []) ≡ last_term_leaves log.now settled.now pending.now answer.old }
{
    code(exports::reads::log_last_term(log, settled, pending, answer))
}

// Values: committed, its term.
#[unsafe(no_mangle)]
pub extern "C" fn log_commit_info(
    log: &[u64],
    settled: &[u64],
    pending: &[u64],
    answer: &mut [u64],
) -> u64
    ensures { leaves result (answer.new ∷ []) ≡ commit_info_leaves log.now settled.now pending.now answer.old }
{
    code(exports::reads::log_commit_info(log, settled, pending, answer))
}

// Whether a log that ends with (i, t) is at least as up to date as this one.
#[unsafe(no_mangle)]
pub extern "C" fn log_is_up_to_date(
    log: &[u64],
    settled: &[u64],
    pending: &[u64],
    i: u64,
    t: u64,
    answer: &mut [u64],
) -> u64
    ensures { leaves result (answer.new ∷ []) ≡ is_up_to_date_leaves log.now settled.now pending.now i t answer.old }
{
    code(exports::reads::log_is_up_to_date(log, settled, pending, i, t, answer))
}

// The largest index at most i whose term is at most t. Values: the index, 1 if a term goes with it, the term.
#[unsafe(no_mangle)]
pub extern "C" fn log_find_conflict_by_term(
    log: &[u64],
    settled: &[u64],
    pending: &[u64],
    i: u64,
    t: u64,
    answer: &mut [u64],
) -> u64
    ensures { leaves result (answer.new ∷ []) ≡ find_conflict_by_term_leaves log.now settled.now pending.now i t answer.old }
{
    code(exports::reads::log_find_conflict_by_term(log, settled, pending, i, t, answer))
}

// The records from low up to high, as far as one store holds them. Values: where (0: empty, 1: settled, 2: pending), first index, index after the last, first word in that store, how many words.
#[unsafe(no_mangle)]
pub extern "C" fn log_slice(
    log: &[u64],
    settled: &[u64],
    pending: &[u64],
    low: u64,
    high: u64,
    answer: &mut [u64],
) -> u64
    ensures { leaves result (answer.new ∷ []) ≡ slice_leaves log.now settled.now pending.now low high answer.old }
{
    code(exports::reads::log_slice(log, settled, pending, low, high, answer))
}

// All records from i on, by the same values.
#[unsafe(no_mangle)]
pub extern "C" fn log_entries(
    log: &[u64],
    settled: &[u64],
    pending: &[u64],
    i: u64,
    answer: &mut [u64],
) -> u64
    ensures { leaves result (answer.new ∷ []) ≡ entries_leaves log.now settled.now pending.now i answer.old }
{
    code(exports::reads::log_entries(log, settled, pending, i, answer))
}

// The records after s that are committed and persisted, by the same values.
#[unsafe(no_mangle)]
pub extern "C" fn log_next_entries_since(
    log: &[u64],
    settled: &[u64],
    pending: &[u64],
    s: u64,
    answer: &mut [u64],
) -> u64
    ensures { leaves result (answer.new ∷ []) ≡ next_entries_since_leaves log.now settled.now pending.now s answer.old }
{
    code(exports::reads::log_next_entries_since(log, settled, pending, s, answer))
}

// Whether there are such records.
#[unsafe(no_mangle)]
pub extern "C" fn log_has_next_entries_since(
    log: &[u64],
    settled: &[u64],
    pending: &[u64],
    s: u64,
    answer: &mut [u64],
) -> u64
    ensures { leaves result (answer.new ∷ []) ≡ has_next_entries_since_leaves log.now settled.now pending.now s answer.old }
{
    code(exports::reads::log_has_next_entries_since(log, settled, pending, s, answer))
}
