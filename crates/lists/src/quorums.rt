// The quorum questions.
//     in:  call first second rows id answer        out:  result answer
// First are the voters, or the incoming ones; second the outgoing ones, none for a majority.
// The checks are lent no answer, and what the line has of it stays.
use crate::line::{Fields, STATE};
use crate::text::{write_result, write_words};
use exports::quorums::{
    joint_checked, joint_clear, joint_committed_index, joint_contains, joint_ids,
    joint_is_singleton, joint_vote_result, majority_committed_index, majority_vote_result,
    rows_checked, voters_checked,
};
use std::io;
use std::io::Write;
use units::refusal::Refusal;

// The call of that number, from 31 to 41, which is the last arm.
fn call(
    name: u64,
    first: &[u64],
    second: &[u64],
    rows: &[u64],
    id: u64,
    answer: &mut [u64],
) -> Result<(), Refusal> {
    match name {
        31 => majority_committed_index(first, rows, answer),
        32 => majority_vote_result(first, rows, answer),
        33 => joint_committed_index(first, second, rows, answer),
        34 => joint_vote_result(first, second, rows, answer),
        35 => joint_is_singleton(first, second, answer),
        36 => joint_contains(first, second, id, answer),
        37 => joint_ids(first, second, answer),
        38 => joint_clear(first, second, answer),
        39 => voters_checked(first),
        40 => joint_checked(first, second),
        _ => rows_checked(rows),
    }
}

pub fn replay<W: Write>(out: &mut W, line: &[u64]) -> io::Result<()> {
    let mut answer = [0u64; STATE];
    let mut fields = Fields::of(line);
    let name = fields.number();
    let first = fields.slice();
    let second = fields.slice();
    let rows = fields.slice();
    let id = fields.number();
    let answer = fields.copied(&mut answer);
    write_result(out, call(name, first, second, rows, id, answer))?;
    write_words(out, answer)
}
