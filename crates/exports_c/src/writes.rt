// The calls of `exports::writes`, for C.
ghost use Rattle.std.specs.Prelude.{◌≡◌, [], ◌∷◌};
ghost use Rattle.exports.specs.Words.{leaves};
ghost use Rattle.exports.specs.LogCalls.{new_log_leaves, append_leaves, commit_to_leaves, maybe_commit_leaves, applied_to_leaves, maybe_persist_leaves, stable_entries_leaves};

use units::refusal::code;

// Set-up: the state of a new log over its two stores.
#[unsafe(no_mangle)]
pub extern "C" fn log_new(
    start: u64,
    start_term: u64,
    last: u64,
    settled: &[u64],
    pending: &[u64],
    log: &mut [u64],
) -> u64
    ensures { leaves result (log.new ∷ []) ≡ new_log_leaves start start_term last settled.now log.old }
{
    code(exports::writes::log_new(start, start_term, last, settled, pending, log))
}

// The leader's own records. Value: last.
#[unsafe(no_mangle)]
pub extern "C" fn log_append(
    log: &mut [u64],
    settled: &[u64],
    pending: &mut [u64],
    run: &[u64],
    answer: &mut [u64],
) -> u64
    ensures { leaves result (pending.new ∷ log.new ∷ answer.new ∷ []) ≡ append_leaves log.old settled.now pending.old run.now answer.old }
{
    code(exports::writes::log_append(log, settled, pending, run, answer))
}

// Committed is i, where it was below.
#[unsafe(no_mangle)]
pub extern "C" fn log_commit_to(log: &mut [u64], settled: &[u64], pending: &[u64], i: u64) -> u64
    ensures { leaves result (log.new ∷ []) ≡ commit_to_leaves log.old settled.now pending.now i }
{
    code(exports::writes::log_commit_to(log, settled, pending, i))
}

// Commits i where it is a record of term t above committed. Value: 1 for yes, 0 for no.
#[unsafe(no_mangle)]
pub extern "C" fn log_maybe_commit(
    log: &mut [u64],
    settled: &[u64],
    pending: &[u64],
    i: u64,
    t: u64,
    answer: &mut [u64],
) -> u64
    ensures { leaves result (log.new ∷ answer.new ∷ []) ≡ maybe_commit_leaves log.old settled.now pending.now i t answer.old }
{
    code(exports::writes::log_maybe_commit(log, settled, pending, i, t, answer))
}

// Applied is i; 0 changes nothing.
#[unsafe(no_mangle)]
pub extern "C" fn log_applied_to(log: &mut [u64], settled: &[u64], pending: &[u64], i: u64) -> u64
    ensures { leaves result (log.new ∷ []) ≡ applied_to_leaves log.old settled.now pending.now i }
{
    code(exports::writes::log_applied_to(log, settled, pending, i))
}

// Persisted is i where it is a settled record of term t above persisted. Value: 1 for yes, 0 for no.
#[unsafe(no_mangle)]
pub extern "C" fn log_maybe_persist(
    log: &mut [u64],
    settled: &[u64],
    pending: &[u64],
    i: u64,
    t: u64,
    answer: &mut [u64],
) -> u64
    ensures { leaves result (log.new ∷ answer.new ∷ []) ≡ maybe_persist_leaves log.old settled.now pending.now i t answer.old }
{
    code(exports::writes::log_maybe_persist(log, settled, pending, i, t, answer))
}

// Pending records that were written go over to the settled ones.
#[unsafe(no_mangle)]
pub extern "C" fn log_stable_entries(
    log: &mut [u64],
    settled: &mut [u64],
    pending: &[u64],
    i: u64,
    t: u64,
) -> u64
    ensures { leaves result (settled.new ∷ log.new ∷ []) ≡ stable_entries_leaves log.old settled.old pending.now i t }
{
    code(exports::writes::log_stable_entries(log, settled, pending, i, t))
}
