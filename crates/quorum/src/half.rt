// One half of a joint configuration, or the one set of a plain one: the questions over what its voters said, as plain numbers.
ghost use Rattle.std.specs.Prelude.{◌≡◌, ◌≤◌, ◌+◌, eqb};
ghost use Rattle.units.specs.Units.{word_max};
ghost use Rattle.rules.specs.Count.{count};
ghost use Rattle.rules.specs.Majority.{falling};
ghost use Rattle.quorum.specs.Votes.{tally as tally_of, joint_result};
ghost use Rattle.quorum.specs.Half.{half_index, joined as joined_of, numbers_result};

use crate::VoteResult;
use units::smaller;

// A committed index, and whether no voter had a say in it: document 01 answers both, "(u64::MAX, true)".
#[derive(Clone, Copy, Debug, PartialEq, Eq)]
pub struct Half {
    pub index: u64,
    pub free: bool,
}

// How far one half has committed: the quorum-th largest of what its voters have acknowledged, by the crate's reverse sort in place.
pub fn index_of(acks: &mut [u64]) -> Half
    ensures { (result ≡ half_index acks.old) × (acks.new ≡ falling acks.old) }
{
    let count = acks.len();
    if count == 0 {
        return Half {
            index: u64::MAX,
            free: true,
        };
    }
    crate::sort::sort(acks);
    Half {
        index: acks[count / 2],
        free: false,
    }
}

// The smaller index; free only where both are.
pub fn joined(incoming: Half, outgoing: Half) -> Half
    ensures { result ≡ joined_of incoming outgoing }
{
    Half {
        index: smaller(incoming.index, outgoing.index),
        free: incoming.free && outgoing.free,
    }
}

// How many words are `word`: a sum, since the library's count of a filter has a branch for each word.
fn count_of(words: &[u64], word: u64) -> usize
    ensures { result ≡ count (eqb word) words.now }
{
    let mut n: usize = 0;
    for w in words {
        n += usize::from(word == *w);
    }
    n
}

// How a vote stands, with so many yes and so many missing.
fn tally(voters: usize, yes: usize, missing: usize) -> VoteResult
    requires { (yes ≤ voters) × (missing ≤ voters) × (voters + voters ≤ word_max) }
    ensures { result ≡ tally_of voters yes missing }
{
    if voters == 0 {
        return VoteResult::Won;
    }
    let quorum = voters / 2 + 1;
    if quorum <= yes {
        return VoteResult::Won;
    }
    if quorum <= yes + missing {
        return VoteResult::Pending;
    }
    VoteResult::Lost
}

// How the vote of one half stands, by what its voters said: 0 missing, 1 yes, 2 no, as `gathered` promises the votes.
pub fn result_of(votes: &[u64]) -> VoteResult
    ensures { result ≡ numbers_result votes.now }
{
    let yes = count_of(votes, 1);
    let missing = count_of(votes, 0);
    tally(votes.len(), yes, missing)
}

// Won if won in both, lost if lost in either, else pending.
pub fn joint_result(incoming: VoteResult, outgoing: VoteResult) -> VoteResult
    ensures { result ≡ joint_result incoming outgoing }
{
    match (incoming, outgoing) {
        (VoteResult::Won, VoteResult::Won) => VoteResult::Won,
        (VoteResult::Lost, _) | (_, VoteResult::Lost) => VoteResult::Lost,
        _ => VoteResult::Pending,
    }
}
