// Peer rows: what each peer has acknowledged and how it has voted, lent as a slice, or gathered as plain numbers.
ghost use Rattle.std.specs.Prelude.{◌≡◌, ℕ};
ghost use Rattle.units.specs.Refusals.{Check};
ghost use Rattle.quorum.specs.Rows.{ack_number, vote_number, value_for, gathered, plain_check, ids_of, values_of};
ghost use Rattle.quorum.specs.Half.{value_in};

use units::Index;
use units::refusal::Refusal;
use units::words::shorter;

// What a peer has acknowledged, and how it has voted, where it has.
#[derive(Clone, Copy, Debug, PartialEq, Eq)]
pub struct Peer {
    pub id: u64,
    pub ack: Option<Index>,
    pub vote: Option<bool>,
}

// Which of its columns a question reads.
#[derive(Clone, Copy, Debug, PartialEq, Eq)]
pub enum Question {
    Index,
    Vote,
}

// What holds peer rows, for one question: it says what the row of an id says, 0 where there is none (AckedIndexer of the crate).
pub trait PeerRows {
    ghost check: { Self → Check };

    ghost said: { Self → ℕ → ℕ };

    // 12 where the rows are too many, or an id stands twice.
    fn checked(&self) -> Result<(), Refusal>
        ensures { result ≡ check self.now };

    fn said(&self, id: u64) -> u64
        ensures { result ≡ said self.now id };
}

// The rows as plain numbers: the ids, and beside each what the question reads of its row. Two arrays and a count, as `gathered` promises them, which may also be too many (`rows_checked_too_many`).
#[derive(Clone, Copy)]
pub struct Rows {
    pub ids: [u64; Rows::LIMIT],
    pub values: [u64; Rows::LIMIT],
    pub count: usize,
}

impl Rows {
    // At most so many peers.
    pub const LIMIT: usize = 64;

    // 12 where the count is over the limit, or an id stands twice.
    pub fn checked(self) -> Result<(), Refusal>
        ensures { result ≡ plain_check self }
    {
        PeerRows::checked(&self)
    }
}

impl PeerRows for Rows {
    ghost check = { plain_check };

    ghost said = { λ rows. value_in (ids_of rows) (values_of rows) };

    fn checked(&self) -> Result<(), Refusal> {
        crate::ids::checked(&self.ids, self.count)
    }

    fn said(&self, id: u64) -> u64 {
        let end = shorter(self.count, Rows::LIMIT);
        let at = crate::ids::position(&self.ids[..end], id);
        self.values[..end].get(at).copied().unwrap_or(0)
    }
}

// A missing acknowledgement counts as 0.
pub fn ack_number(ack: Option<Index>) -> u64
    ensures { result ≡ ack_number ack }
{
    ack.map_or(0, |index| index.0)
}

// 0 missing, 1 yes, 2 no: numbers, as `gathered` promises the votes.
pub fn vote_number(vote: Option<bool>) -> u64
    ensures { result ≡ vote_number vote }
{
    match vote {
        None => 0,
        Some(true) => 1,
        Some(false) => 2,
    }
}

// What a question reads of a row: one of two columns, as `value_for` promises.
pub fn value(peer: Peer, question: Question) -> u64
    ensures { result ≡ value_for question peer }
{
    match question {
        Question::Index => ack_number(peer.ack),
        Question::Vote => vote_number(peer.vote),
    }
}

// The lent rows as plain numbers, for one question. What is beyond the limit is counted and not read.
pub fn gather(peers: &[Peer], question: Question) -> Rows
    ensures { result ≡ gathered question peers.now }
{
    let count = peers.len();
    let end = shorter(count, Rows::LIMIT);
    let mut ids = [0u64; Rows::LIMIT];
    let mut values = [0u64; Rows::LIMIT];
    for (i, peer) in peers[..end].iter().enumerate() {
        ids[i] = peer.id;
        values[i] = value(*peer, question);
    }
    Rows { ids, values, count }
}
