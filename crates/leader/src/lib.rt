#![tactic(auto)]
// The leader's commit step (raft.rs, `maybe_commit`): how far a majority of both halves has acknowledged, asked of the quorum crate, and offered to the log with the leader's term.
// The log part sees the quorum part only through its promises: here the two meet.
ghost use Rattle.std.specs.Prelude.{◌≡◌};
ghost use Rattle.units.specs.declared.refusal.Refusal.{Refusal};
ghost use Rattle.units.specs.Refusals.{number_of};
ghost use Rattle.leader.specs.Leader.{told_as, commit_found_as, leader_commit};

use quorum::joint::{JointConfig, committed_index};
use quorum::rows::Peer;
use raft_log::Log;
use units::refusal::Refusal;
use units::{Index, Term};

// Commits what a majority of every nonempty half has acknowledged, where its record is of the leader's own term.
#[tactic(auto, using(crate::proofs::Found::as_itself), unfolding(crate::specs::Leader::leader_commit))]
pub fn maybe_commit(
    log: Log,
    settled: &[u64],
    pending: &[u64],
    term: Term,
    config: JointConfig,
    peers: &[Peer],
) -> Result<Option<Log>, Refusal>
    ensures { result ≡ leader_commit log settled.now pending.now term.0 config peers.now }
{
    commit_found(log, settled, pending, term, committed_index(config, peers))
}

// What a refusal is handed on as: itself, its number, or an error of the caller's own. Not `From`, which says by a relation what it gives: here it is a function, so that a promise stays an equation.
pub trait OfRefusal: Copy {
    ghost of_refusal: { Refusal → Self };

    fn of_refusal(refusal: Refusal) -> Self
        ensures { result ≡ of_refusal refusal };
}

impl OfRefusal for Refusal {
    ghost of_refusal = { λ refusal. refusal };

    fn of_refusal(refusal: Refusal) -> Refusal {
        refusal
    }
}

impl OfRefusal for u64 {
    ghost of_refusal = { number_of };

    fn of_refusal(refusal: Refusal) -> u64 {
        refusal.number()
    }
}

// The same for an index already found, or whatever was answered in its place: the log's own refusal comes first.
#[tactic(auto, unfolding(raft_log::specs::Look::last_index))]
pub fn commit_found<E: OfRefusal>(
    log: Log,
    settled: &[u64],
    pending: &[u64],
    term: Term,
    found: Result<(Index, bool), E>,
) -> Result<Option<Log>, E>
    ensures { result ≡ commit_found_as E.of_refusal log settled.now pending.now term.0 found }
{
    match found {
        Ok((index, _free)) => log
            .maybe_commit(settled, pending, index, term)
            .map_err(|refusal| E::of_refusal(refusal)),
        Err(refused) => match log.last_index(settled, pending) {
            Ok(_last) => Err(refused),
            Err(broken) => Err(E::of_refusal(broken)),
        },
    }
}
