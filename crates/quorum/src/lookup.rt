// What each voter said, by what holds the rows, and what one half says by that.
ghost use Rattle.std.specs.Prelude.{◌≡◌, ◌≤◌, length, map, take};
ghost use Rattle.quorum.specs.Limits.{voter_limit};
ghost use Rattle.quorum.specs.Half.{half_index, numbers_result};

use crate::VoteResult;
use crate::half::{Half, index_of, result_of};
use crate::majority::Voters;
use crate::rows::PeerRows;

// What each voter said, in the voters' order, at the front of `all`.
fn look_up<R: PeerRows>(all: &mut [u64], voters: &[u64], rows: &R)
    requires { length voters.now ≤ length all.old }
    ensures { take (length voters.now) all.new ≡ map (R.said rows.now) voters.now }
{
    for (i, id) in voters.iter().enumerate() {
        all[i] = rows.said(*id);
    }
}

// How far one half has committed. The voters are as many as the array has room for: the bound stands here, at the vote and in joint.rt, since there is no heap.
pub fn half_index<R: PeerRows>(voters: &[u64], rows: &R) -> Half
    requires { length voters.now ≤ voter_limit }
    ensures { result ≡ half_index (map (R.said rows.now) voters.now) }
{
    let count = voters.len();
    let mut acks = [0u64; Voters::LIMIT];
    look_up(&mut acks, voters, rows);
    index_of(&mut acks[..count])
}

// How the vote of one half stands.
pub fn half_result<R: PeerRows>(voters: &[u64], rows: &R) -> VoteResult
    requires { length voters.now ≤ voter_limit }
    ensures { result ≡ numbers_result (map (R.said rows.now) voters.now) }
{
    let count = voters.len();
    let mut votes = [0u64; Voters::LIMIT];
    look_up(&mut votes, voters, rows);
    result_of(&votes[..count])
}
