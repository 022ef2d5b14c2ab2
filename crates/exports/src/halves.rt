// Peer rows in words, for the questions of crate quorum. The row of a voter is looked up where it stands, so that nothing is copied but what each voter said.
ghost use Rattle.std.specs.Prelude.{◌≡◌, ◌+◌, ◌*◌, ◌≤◌, drop};
ghost use Rattle.quorum.specs.Ids.{position, distinct as distinct_of};
ghost use Rattle.quorum.specs.Rows.{rows_check};
ghost use Rattle.quorum.specs.declared.rows.Question.TheVariants as question;
ghost use Rattle.exports.specs.Rows.{row_length, peers_from, rows_end, BetweenRows, row_ids, read_of};

use crate::rows::{ROW, row};
use quorum::rows::{PeerRows, Question, Rows, value};
use units::refusal::Refusal;

// Peer rows as words, for what a majority has acknowledged.
#[derive(Clone, Copy)]
pub struct AckWords<'a>(pub &'a [u64]);

// For how a vote stands. A type each, since the joint index took 4 to 10 per cent more instructions with the question as a field. A const parameter would have each question say `true` or `false`.
#[derive(Clone, Copy)]
pub struct VoteWords<'a>(pub &'a [u64]);

// Where the words of the last row end.
fn rows_end(words: &[u64]) -> usize
    ensures { result ≡ rows_end words.now }
{
    words.len() / ROW * ROW
}

// Where the words of the row of `id` begin, among the rows from `from` on; the end where none has it.
fn place(words: &[u64], from: usize, id: u64) -> usize
    requires { BetweenRows from × (from ≤ rows_end words.now) }
    ensures { result ≡ from + position id (row_ids (drop from words.now)) * row_length }
{
    let end = rows_end(words);
    // A `while`: a `for` by steps tests each row twice, and one over row numbers, which are what `chunks_exact` gives, made the calls 3 to 16 per cent slower.
    let mut at = from;
    while at < end {
        if words[at] == id {
            return at;
        }
        at += ROW;
    }
    end
}

// Whether no id stands in two rows.
fn distinct(words: &[u64]) -> bool
    ensures { result ≡ distinct_of (row_ids words.now) }
{
    let end = rows_end(words);
    // A `while` for the same reasons as in `place`: over row numbers the calls were 3 to 7 per cent slower.
    let mut at = 0;
    while at < end {
        let id = words[at];
        at += ROW;
        if place(words, at, id) < end {
            return false;
        }
    }
    true
}

// 12 where the rows are too many, or an id stands in two.
#[tactic(auto, using(crate::proofs::RowWords::rows_count))]
pub fn rows_checked(words: &[u64]) -> Result<(), Refusal>
    ensures { result ≡ rows_check (peers_from words.now) }
{
    if Rows::LIMIT < words.len() / ROW {
        return Err(Refusal::BrokenSet);
    }
    if distinct(words) {
        return Ok(());
    }
    Err(Refusal::BrokenSet)
}

// What a question reads of the row of `id`: 0 where there is none.
#[tactic(auto, using(crate::proofs::RowWords::read_nowhere, crate::proofs::RowWords::read_there))]
fn found(words: &[u64], id: u64, question: Question) -> u64
    ensures { result ≡ read_of question words.now id }
{
    let at = place(words, 0, id);
    if at < rows_end(words) {
        return value(row(words, at), question);
    }
    0
}

impl PeerRows for AckWords<'_> {
    ghost check = { λ rows. rows_check (peers_from rows.0.now) };

    ghost said = { λ rows. read_of question.Index rows.0.now };

    fn checked(&self) -> Result<(), Refusal> {
        rows_checked(self.0)
    }

    fn said(&self, id: u64) -> u64 {
        found(self.0, id, Question::Index)
    }
}

impl PeerRows for VoteWords<'_> {
    ghost check = { λ rows. rows_check (peers_from rows.0.now) };

    ghost said = { λ rows. read_of question.Vote rows.0.now };

    fn checked(&self) -> Result<(), Refusal> {
        rows_checked(self.0)
    }

    fn said(&self, id: u64) -> u64 {
        found(self.0, id, Question::Vote)
    }
}
