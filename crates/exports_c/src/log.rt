// The calls of `exports::log`, for C.
ghost use Rattle.std.specs.Prelude.{◌≡◌, [], ◌∷◌};
ghost use Rattle.exports.specs.Words.{leaves};
ghost use Rattle.exports.specs.LogCalls.{maybe_append_leaves};

use units::refusal::code;

// AppendEntries at the receiver. Values: conflict, last.
#[unsafe(no_mangle)]
pub extern "C" fn log_maybe_append(
    log: &mut [u64],
    settled: &[u64],
    pending: &mut [u64],
    idx: u64,
    term: u64,
    commit: u64,
    run: &[u64],
    answer: &mut [u64],
) -> u64
    ensures { leaves result (pending.new ∷ log.new ∷ answer.new ∷ []) ≡ maybe_append_leaves log.old settled.now pending.old idx term commit run.now answer.old }
{
    code(exports::log::log_maybe_append(log, settled, pending, idx, term, commit, run, answer))
}
