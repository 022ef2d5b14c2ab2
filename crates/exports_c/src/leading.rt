// The calls of `exports::leading`, for C.
ghost use Rattle.std.specs.Prelude.{◌≡◌, [], ◌∷◌};
ghost use Rattle.exports.specs.Words.{leaves};
ghost use Rattle.exports.specs.QuorumCalls.{leader_commit_leaves};

use units::refusal::code;

// Commits what a majority of every nonempty half has acknowledged. Value: 1 for yes, 0 for no.
#[unsafe(no_mangle)]
pub extern "C" fn leader_maybe_commit(
    log: &mut [u64],
    settled: &[u64],
    pending: &[u64],
    term: u64,
    incoming: &[u64],
    outgoing: &[u64],
    rows: &[u64],
    answer: &mut [u64],
) -> u64
    ensures { leaves result (log.new ∷ answer.new ∷ []) ≡ leader_commit_leaves log.old settled.now pending.now term incoming.now outgoing.now rows.now answer.old }
{
    code(exports::leading::leader_maybe_commit(
        log, settled, pending, term, incoming, outgoing, rows, answer,
    ))
}
