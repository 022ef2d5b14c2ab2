// The calls of `exports::quorums`, for C.
ghost use Rattle.std.specs.Prelude.{◌≡◌, [], ◌∷◌};
ghost use Rattle.exports.specs.Words.{leaves};
ghost use Rattle.exports.specs.QuorumCalls.{majority_committed_index_leaves, majority_vote_result_leaves, joint_committed_index_leaves, joint_vote_result_leaves, is_singleton_leaves, contains_leaves, joint_ids_leaves, clear_leaves, voters_refusal, joint_refusal, rows_refusal};

use units::refusal::code;

// How far a majority has acknowledged. Values: the index, and 1 if nobody had a say.
#[unsafe(no_mangle)]
pub extern "C" fn majority_committed_index(voters: &[u64], rows: &[u64], answer: &mut [u64]) -> u64
    ensures { leaves result (answer.new ∷ []) ≡ majority_committed_index_leaves voters.now rows.now answer.old }
{
    code(exports::quorums::majority_committed_index(voters, rows, answer))
}

// How the vote stands: 0 pending, 1 lost, 2 won.
#[unsafe(no_mangle)]
pub extern "C" fn majority_vote_result(voters: &[u64], rows: &[u64], answer: &mut [u64]) -> u64
    ensures { leaves result (answer.new ∷ []) ≡ majority_vote_result_leaves voters.now rows.now answer.old }
{
    code(exports::quorums::majority_vote_result(voters, rows, answer))
}

// How far a majority of both halves has acknowledged.
#[unsafe(no_mangle)]
pub extern "C" fn joint_committed_index(
    incoming: &[u64],
    outgoing: &[u64],
    rows: &[u64],
    answer: &mut [u64],
) -> u64
    ensures { leaves result (answer.new ∷ []) ≡ joint_committed_index_leaves incoming.now outgoing.now rows.now answer.old }
{
    code(exports::quorums::joint_committed_index(incoming, outgoing, rows, answer))
}

// How the vote of both halves stands.
#[unsafe(no_mangle)]
pub extern "C" fn joint_vote_result(
    incoming: &[u64],
    outgoing: &[u64],
    rows: &[u64],
    answer: &mut [u64],
) -> u64
    ensures { leaves result (answer.new ∷ []) ≡ joint_vote_result_leaves incoming.now outgoing.now rows.now answer.old }
{
    code(exports::quorums::joint_vote_result(incoming, outgoing, rows, answer))
}

// One incoming voter, and nobody outgoing.
#[unsafe(no_mangle)]
pub extern "C" fn joint_is_singleton(incoming: &[u64], outgoing: &[u64], answer: &mut [u64]) -> u64
    ensures { leaves result (answer.new ∷ []) ≡ is_singleton_leaves incoming.now outgoing.now answer.old }
{
    code(exports::quorums::joint_is_singleton(incoming, outgoing, answer))
}

// Whether `id` is a voter of either half.
#[unsafe(no_mangle)]
pub extern "C" fn joint_contains(
    incoming: &[u64],
    outgoing: &[u64],
    id: u64,
    answer: &mut [u64],
) -> u64
    ensures { leaves result (answer.new ∷ []) ≡ contains_leaves incoming.now outgoing.now id answer.old }
{
    code(exports::quorums::joint_contains(incoming, outgoing, id, answer))
}

// The ids of both halves in rising order. Values: how many, and a word for each that there can be.
#[unsafe(no_mangle)]
pub extern "C" fn joint_ids(incoming: &[u64], outgoing: &[u64], answer: &mut [u64]) -> u64
    ensures { leaves result (answer.new ∷ []) ≡ joint_ids_leaves incoming.now outgoing.now answer.old }
{
    code(exports::quorums::joint_ids(incoming, outgoing, answer))
}

// No ids in either half, whatever they were. Values: how many ids are left incoming, and how many outgoing.
#[unsafe(no_mangle)]
pub extern "C" fn joint_clear(incoming: &[u64], outgoing: &[u64], answer: &mut [u64]) -> u64
    ensures { leaves result (answer.new ∷ []) ≡ clear_leaves incoming.now outgoing.now answer.old }
{
    code(exports::quorums::joint_clear(incoming, outgoing, answer))
}

// 12 where the ids are too many, or one stands twice.
#[unsafe(no_mangle)]
pub extern "C" fn voters_checked(voters: &[u64]) -> u64
    ensures { result ≡ voters_refusal voters.now }
{
    code(exports::quorums::voters_checked(voters))
}

// 12 of either half.
#[unsafe(no_mangle)]
pub extern "C" fn joint_checked(incoming: &[u64], outgoing: &[u64]) -> u64
    ensures { result ≡ joint_refusal incoming.now outgoing.now }
{
    code(exports::quorums::joint_checked(incoming, outgoing))
}

// 12 where the rows are too many, or an id stands twice.
#[unsafe(no_mangle)]
pub extern "C" fn rows_checked(rows: &[u64]) -> u64
    ensures { result ≡ rows_refusal rows.now }
{
    code(exports::quorums::rows_checked(rows))
}
