// Voters and peer rows, read from words. What is wrong with them (12) is left to the questions, which look for it in any case.
ghost use Rattle.std.specs.Prelude.{◌≡◌, ◌∷◌, ◌+◌, ◌≤◌, length, drop};
ghost use Rattle.exports.specs.Rows.{row_length, ack_from, vote_from, peers_from, config_from};

use quorum::joint::JointConfig;
use quorum::majority::Voters;
use quorum::rows::Peer;
use units::Index;

// Words of a peer row: id, 0 if its acknowledgement is missing, the acknowledged index, its vote.
pub const ROW: usize = 4;

fn ack(known: u64, index: u64) -> Option<Index>
    ensures { result ≡ ack_from known index }
{
    if known == 0 {
        return None;
    }
    Some(Index(index))
}

fn vote(said: u64) -> Option<bool>
    ensures { result ≡ vote_from said }
{
    if said == 1 {
        return Some(true);
    }
    if said == 2 {
        return Some(false);
    }
    None
}

// The row whose words begin at `at`: it and those behind it are the rows from there on.
#[tactic(auto, using(crate::proofs::RowWords::row_at))]
pub fn row(words: &[u64], at: usize) -> Peer
    requires { at + row_length ≤ length words.now }
    ensures { peers_from (drop at words.now) ≡ result ∷ peers_from (drop (at + row_length) words.now) }
{
    Peer {
        id: words[at],
        ack: ack(words[at + 1], words[at + 2]),
        vote: vote(words[at + 3]),
    }
}

// Both halves, broken or not: the sets of these ids.
pub fn config(incoming: &[u64], outgoing: &[u64]) -> JointConfig
    ensures { result ≡ config_from incoming.now outgoing.now }
{
    JointConfig {
        incoming: Voters::holding(incoming),
        outgoing: Voters::holding(outgoing),
    }
}
