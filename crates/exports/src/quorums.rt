#![tactic(auto, unfolding(crate::specs::Words::unless_short))]
// The questions of crate quorum over words. Each tests that the answer has room, reads the sets and the rows, asks, and writes last, so that a refusal writes nothing.
// The checks of sets and rows are their result alone, and write nothing.
ghost use Rattle.std.specs.Prelude.{◌≡◌, [], ◌∷◌, ◌≤◌, length};
ghost use Rattle.units.specs.Refusals.{refusal_of};
ghost use Rattle.exports.specs.Words.{pair_length, put, leaves};
ghost use Rattle.exports.specs.QuorumCalls.{result_word, sizes_words, majority_committed_index_leaves, majority_vote_result_leaves, joint_committed_index_leaves, joint_vote_result_leaves, is_singleton_leaves, contains_leaves, joint_ids_leaves, clear_leaves, voters_refusal, joint_refusal, rows_refusal};

use crate::halves::{AckWords, VoteWords};
use crate::rows::config;
use crate::words::{IDS, PAIR, SINGLE, flag, long_enough, store_pair};
use quorum::joint::JointConfig;
use quorum::majority::ids_checked;
use quorum::{VoteResult, joint, majority};
use units::refusal::Refusal;
use units::words::copy_at;

// The number that C is told.
fn result_word(res: VoteResult) -> u64
    ensures { result ≡ result_word res }
{
    match res {
        VoteResult::Pending => 0,
        VoteResult::Lost => 1,
        VoteResult::Won => 2,
    }
}

// How many ids a configuration has incoming, and how many outgoing.
fn store_sizes(answer: &mut [u64], config: JointConfig)
    requires { pair_length ≤ length answer.old }
    ensures { answer.new ≡ put answer.old (sizes_words config) }
{
    answer[0] = config.incoming.count as u64;
    answer[1] = config.outgoing.count as u64;
}

// How far a majority has acknowledged. Values: the index, and 1 if nobody had a say.
#[tactic(auto, using(crate::proofs::Asked::index_asked), unfolding(crate::specs::Words::unless_short))]
pub fn majority_committed_index(
    voters: &[u64],
    rows: &[u64],
    answer: &mut [u64],
) -> Result<(), Refusal>
    ensures { leaves (refusal_of result) (answer.new ∷ []) ≡ majority_committed_index_leaves voters.now rows.now answer.old }
{
    long_enough(answer, PAIR)?;
    let (index, free) = majority::committed_index_by(voters, &AckWords(rows))?;
    store_pair(answer, index.0, flag(free));
    Ok(())
}

// How the vote stands: 0 pending, 1 lost, 2 won.
#[tactic(auto, using(crate::proofs::Asked::result_asked), unfolding(crate::specs::Words::unless_short))]
pub fn majority_vote_result(voters: &[u64], rows: &[u64], answer: &mut [u64]) -> Result<(), Refusal>
    ensures { leaves (refusal_of result) (answer.new ∷ []) ≡ majority_vote_result_leaves voters.now rows.now answer.old }
{
    long_enough(answer, SINGLE)?;
    answer[0] = result_word(majority::vote_result_by(voters, &VoteWords(rows))?);
    Ok(())
}

// How far a majority of both halves has acknowledged.
#[tactic(auto, using(crate::proofs::Asked::joint_asked), unfolding(crate::specs::Words::unless_short))]
pub fn joint_committed_index(
    incoming: &[u64],
    outgoing: &[u64],
    rows: &[u64],
    answer: &mut [u64],
) -> Result<(), Refusal>
    ensures { leaves (refusal_of result) (answer.new ∷ []) ≡ joint_committed_index_leaves incoming.now outgoing.now rows.now answer.old }
{
    long_enough(answer, PAIR)?;
    let (index, free) = joint::committed_index_by(incoming, outgoing, &AckWords(rows))?;
    store_pair(answer, index.0, flag(free));
    Ok(())
}

// How the vote of both halves stands.
#[tactic(auto, using(crate::proofs::Asked::verdict_asked), unfolding(crate::specs::Words::unless_short))]
pub fn joint_vote_result(
    incoming: &[u64],
    outgoing: &[u64],
    rows: &[u64],
    answer: &mut [u64],
) -> Result<(), Refusal>
    ensures { leaves (refusal_of result) (answer.new ∷ []) ≡ joint_vote_result_leaves incoming.now outgoing.now rows.now answer.old }
{
    long_enough(answer, SINGLE)?;
    answer[0] = result_word(joint::vote_result_by(incoming, outgoing, &VoteWords(rows))?);
    Ok(())
}

// One incoming voter, and nobody outgoing.
pub fn joint_is_singleton(
    incoming: &[u64],
    outgoing: &[u64],
    answer: &mut [u64],
) -> Result<(), Refusal>
    ensures { leaves (refusal_of result) (answer.new ∷ []) ≡ is_singleton_leaves incoming.now outgoing.now answer.old }
{
    long_enough(answer, SINGLE)?;
    answer[0] = flag(config(incoming, outgoing).is_singleton()?);
    Ok(())
}

// Whether `id` is a voter of either half.
pub fn joint_contains(
    incoming: &[u64],
    outgoing: &[u64],
    id: u64,
    answer: &mut [u64],
) -> Result<(), Refusal>
    ensures { leaves (refusal_of result) (answer.new ∷ []) ≡ contains_leaves incoming.now outgoing.now id answer.old }
{
    long_enough(answer, SINGLE)?;
    answer[0] = flag(config(incoming, outgoing).contains(id)?);
    Ok(())
}

// The ids of both halves in rising order. Values: how many, and a word for each that there can be.
pub fn joint_ids(incoming: &[u64], outgoing: &[u64], answer: &mut [u64]) -> Result<(), Refusal>
    ensures { leaves (refusal_of result) (answer.new ∷ []) ≡ joint_ids_leaves incoming.now outgoing.now answer.old }
{
    long_enough(answer, IDS)?;
    let listed = config(incoming, outgoing).ids()?;
    answer[0] = listed.count as u64;
    copy_at(answer, 1, &listed.ids);
    Ok(())
}

// No ids in either half, whatever they were. Values: how many ids are left incoming, and how many outgoing.
pub fn joint_clear(incoming: &[u64], outgoing: &[u64], answer: &mut [u64]) -> Result<(), Refusal>
    ensures { leaves (refusal_of result) (answer.new ∷ []) ≡ clear_leaves incoming.now outgoing.now answer.old }
{
    long_enough(answer, PAIR)?;
    store_sizes(answer, config(incoming, outgoing).clear());
    Ok(())
}

// 12 where the ids are too many, or one stands twice.
pub fn voters_checked(voters: &[u64]) -> Result<(), Refusal>
    ensures { refusal_of result ≡ voters_refusal voters.now }
{
    ids_checked(voters)
}

// 12 of either half.
pub fn joint_checked(incoming: &[u64], outgoing: &[u64]) -> Result<(), Refusal>
    ensures { refusal_of result ≡ joint_refusal incoming.now outgoing.now }
{
    config(incoming, outgoing).checked()
}

// 12 where the rows are too many, or an id stands twice.
pub fn rows_checked(rows: &[u64]) -> Result<(), Refusal>
    ensures { refusal_of result ≡ rows_refusal rows.now }
{
    crate::halves::rows_checked(rows)
}
