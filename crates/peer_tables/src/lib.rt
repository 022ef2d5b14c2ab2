#![tactic(auto)]
// Peer rows by value, for callers that hold them in an array. The quorum questions read lent rows: a table lends its own.
pub mod joint;
pub mod majority;

ghost use Rattle.std.specs.Prelude.{◌≡◌, MatchResult};
ghost use Rattle.peer_tables.specs.Table.{no_rows, with_row, rows_lent};

use quorum::rows::{Peer, Rows};
use units::refusal::Refusal;

// The rows: the first `count`. A count over the limit says only that there were too many. An array and a count, since there is no heap, and since a table with too many rows is one that is asked (`table_vote_result_by_seven`).
#[derive(Clone, Copy)]
pub struct Table {
    pub peers: [Peer; Rows::LIMIT],
    pub count: usize,
}

impl Table {
    pub fn empty() -> Table
        ensures { result ≡ no_rows }
    {
        let nobody = Peer {
            id: 0,
            ack: None,
            vote: None,
        };
        Table {
            peers: [nobody; Rows::LIMIT],
            count: 0,
        }
    }

    // One row more. Where the table is full, the row is not kept, and the count is one over the limit from then on.
    pub fn with(mut self, peer: Peer) -> Table
        ensures { result ≡ with_row self peer }
    {
        if Rows::LIMIT <= self.count {
            self.count = Rows::LIMIT + 1;
            return self;
        }
        self.peers[self.count] = peer;
        self.count += 1;
        self
    }

    // The rows, lent for as long as the table is: 12 where there were too many.
    pub fn rows(&self) -> Result<&[Peer], Refusal>
        ensures { MatchResult result
            (λ rows. Ok rows.now ≡ rows_lent self.now)
            (λ refusal. Err refusal ≡ rows_lent self.now) }
    {
        if Rows::LIMIT < self.count {
            return Err(Refusal::BrokenSet);
        }
        Ok(&self.peers[..self.count])
    }
}
