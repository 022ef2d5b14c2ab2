// The leader's commit step over words.
ghost use Rattle.std.specs.Prelude.{◌≡◌, [], ◌∷◌};
ghost use Rattle.units.specs.Refusals.{refusal_of};
ghost use Rattle.exports.specs.Words.{leaves};
ghost use Rattle.exports.specs.QuorumCalls.{leader_commit_leaves};

use crate::halves::AckWords;
use crate::words::{LOG, SINGLE, load, long_enough, store_decided};
use leader::commit_found;
use quorum::joint::committed_index_by;
use units::Term;
use units::refusal::Refusal;

// Commits what a majority of every nonempty half has acknowledged. Value: 1 for yes, 0 for no.
#[tactic(auto, using(crate::proofs::Asked::joint_asked, leader::proofs::Found::as_itself), unfolding(crate::specs::Words::unless_short, leader::specs::Leader::leader_commit))]
pub fn leader_maybe_commit(
    log: &mut [u64],
    settled: &[u64],
    pending: &[u64],
    term: u64,
    incoming: &[u64],
    outgoing: &[u64],
    rows: &[u64],
    answer: &mut [u64],
) -> Result<(), Refusal>
    ensures { leaves (refusal_of result) (log.new ∷ answer.new ∷ []) ≡ leader_commit_leaves log.old settled.now pending.now term incoming.now outgoing.now rows.now answer.old }
{
    long_enough(log, LOG)?;
    long_enough(answer, SINGLE)?;
    let found = committed_index_by(incoming, outgoing, &AckWords(rows));
    let decided = commit_found(load(log), settled, pending, Term(term), found)?;
    store_decided(log, answer, decided);
    Ok(())
}
