// A set of ids that uses majority quorums to make decisions (majority.rs).
ghost use Rattle.std.specs.Prelude.{◌≡◌, MatchResult, Err};
ghost use Rattle.quorum.specs.Voters.{voters_check, voters_of, set_of, no_voters, made};
ghost use Rattle.quorum.specs.Majority.{committed_index, vote_result, committed_index_by, vote_result_by, plain_committed_index, plain_vote_result};

use crate::VoteResult;
use crate::lookup::{half_index, half_result};
use crate::rows::{Peer, PeerRows, Question, Rows, gather};
use units::Index;
use units::refusal::Refusal;
use units::words::copy_at;

// The voters: the first `count` ids, each once. An array and a count, since there is no heap, and since a broken set is a value that is asked and refused (`voters_checked_repeated`).
#[derive(Clone, Copy)]
pub struct Voters {
    pub ids: [u64; Voters::LIMIT],
    pub count: usize,
}

impl Voters {
    // At most so many voters in one set: what the crate keeps on its stack.
    pub const LIMIT: usize = 7;

    pub fn empty() -> Self
        ensures { result ≡ no_voters }
    {
        Self {
            ids: [0; Voters::LIMIT],
            count: 0,
        }
    }

    // The set of these ids: 12 where they are too many, or one stands twice.
    pub fn new(ids: &[u64]) -> Result<Self, Refusal>
        ensures { result ≡ made ids.now }
    {
        ids_checked(ids)?;
        Ok(Voters::holding(ids))
    }

    // The set of these ids as they are, also where it is broken: what is over the limit is counted and not kept.
    pub fn holding(ids: &[u64]) -> Self
        ensures { result ≡ set_of ids.now }
    {
        let count = ids.len();
        let mut copy = [0u64; Voters::LIMIT];
        copy_at(&mut copy, 0, ids);
        Self { ids: copy, count }
    }

    // 12 where the count is over the limit, or an id stands twice.
    pub fn checked(self) -> Result<(), Refusal>
        ensures { result ≡ voters_check self }
    {
        self.lent_checked()
    }

    // The same of a set that stands in another value, which it does not copy.
    pub(crate) fn lent_checked(&self) -> Result<(), Refusal>
        ensures { result ≡ voters_check self.now }
    {
        crate::ids::checked(&self.ids, self.count)
    }

    // The voters' ids, which are checked as the set is: 12 where the count is over the limit.
    #[tactic(auto, using(crate::proofs::Asked::over, crate::proofs::Asked::checked_as_ids))]
    pub(crate) fn listed(&self) -> Result<&[u64], Refusal>
        ensures { MatchResult result (λ ids. (ids.now ≡ voters_of self.now) × (voters_check self.now ≡ voters_check (set_of ids.now))) (λ e. voters_check self.now ≡ Err e) }
    {
        if Voters::LIMIT < self.count {
            return Err(Refusal::BrokenSet);
        }
        Ok(&self.ids[..self.count])
    }
}

// 12 of the set of these ids.
pub fn ids_checked(ids: &[u64]) -> Result<(), Refusal>
    ensures { result ≡ voters_check (set_of ids.now) }
{
    if Voters::LIMIT < ids.len() {
        return Err(Refusal::BrokenSet);
    }
    crate::ids::checked(ids, ids.len())
}

// How far a majority has acknowledged, by whatever holds the rows. It and the vote, here and in joint.rt, are four bodies: they answer two types, and a half or two halves joined (DECISIONS.md, 41).
#[tactic(auto, unfolding(crate::specs::Majority::committed_index_by))]
pub fn committed_index_by<R: PeerRows>(voters: &[u64], rows: &R) -> Result<(Index, bool), Refusal>
    ensures { result ≡ committed_index_by voters.now (R.check rows.now) (R.said rows.now) }
{
    ids_checked(voters)?;
    rows.checked()?;
    let half = half_index(voters, rows);
    Ok((Index(half.index), half.free))
}

// How the vote stands, by whatever holds the rows.
#[tactic(auto, unfolding(crate::specs::Majority::vote_result_by))]
pub fn vote_result_by<R: PeerRows>(voters: &[u64], rows: &R) -> Result<VoteResult, Refusal>
    ensures { result ≡ vote_result_by voters.now (R.check rows.now) (R.said rows.now) }
{
    ids_checked(voters)?;
    rows.checked()?;
    Ok(half_result(voters, rows))
}

// How far a majority has acknowledged, over gathered rows: the core of `committed_index`.
#[tactic(auto, unfolding(crate::specs::Majority::committed_index_by, crate::specs::Majority::plain_committed_index))]
pub fn committed_index_of(voters: Voters, rows: Rows) -> Result<(Index, bool), Refusal>
    ensures { result ≡ plain_committed_index voters rows }
{
    committed_index_by(voters.listed()?, &rows)
}

// How the vote stands, over gathered rows: the core of `vote_result`.
#[tactic(auto, unfolding(crate::specs::Majority::vote_result_by, crate::specs::Majority::plain_vote_result))]
pub fn vote_result_of(voters: Voters, rows: Rows) -> Result<VoteResult, Refusal>
    ensures { result ≡ plain_vote_result voters rows }
{
    vote_result_by(voters.listed()?, &rows)
}

// How far a majority has acknowledged, by the lent rows.
#[tactic(auto, using(crate::proofs::Gathered::gathered_index))]
pub fn committed_index(voters: Voters, peers: &[Peer]) -> Result<(Index, bool), Refusal>
    ensures { result ≡ committed_index voters peers.now }
{
    committed_index_of(voters, gather(peers, Question::Index))
}

// How the vote stands, by the lent rows.
#[tactic(auto, using(crate::proofs::Gathered::gathered_result))]
pub fn vote_result(voters: Voters, peers: &[Peer]) -> Result<VoteResult, Refusal>
    ensures { result ≡ vote_result voters peers.now }
{
    vote_result_of(voters, gather(peers, Question::Vote))
}
