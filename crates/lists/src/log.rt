// The calls on the log.
//     in:  call log settled pending a b c run answer        out:  result log settled pending answer
use crate::line::{Fields, STATE, STORE};
use crate::text::{write_result, write_words};
use exports::log::log_maybe_append;
use exports::reads::{
    log_commit_info, log_entries, log_find_conflict_by_term, log_first_index,
    log_has_next_entries_since, log_is_up_to_date, log_last_index, log_last_term,
    log_next_entries_since, log_slice, log_term,
};
use exports::writes::{
    log_append, log_applied_to, log_commit_to, log_maybe_commit, log_maybe_persist, log_new,
    log_stable_entries,
};
use std::io;
use std::io::Write;
use units::refusal::Refusal;

// The calls that write nothing but the answer; the last arm is 29.
fn read(
    name: u64,
    [a, b, _]: [u64; 3],
    log: &[u64],
    settled: &[u64],
    pending: &[u64],
    answer: &mut [u64],
) -> Result<(), Refusal> {
    match name {
        12 => log_term(log, settled, pending, a, answer),
        13 => log_first_index(log, settled, pending, answer),
        14 => log_last_index(log, settled, pending, answer),
        15 => log_last_term(log, settled, pending, answer),
        16 => log_commit_info(log, settled, pending, answer),
        17 => log_is_up_to_date(log, settled, pending, a, b, answer),
        18 => log_find_conflict_by_term(log, settled, pending, a, b, answer),
        26 => log_slice(log, settled, pending, a, b, answer),
        27 => log_entries(log, settled, pending, a, answer),
        28 => log_has_next_entries_since(log, settled, pending, a, answer),
        _ => log_next_entries_since(log, settled, pending, a, answer),
    }
}

// The calls that write the log or a store; the last arm is 25.
fn write(
    name: u64,
    [a, b, c]: [u64; 3],
    run: &[u64],
    log: &mut [u64],
    settled: &mut [u64],
    pending: &mut [u64],
    answer: &mut [u64],
) -> Result<(), Refusal> {
    match name {
        11 => log_new(a, b, c, settled, pending, log),
        19 => log_maybe_append(log, settled, pending, a, b, c, run, answer),
        20 => log_append(log, settled, pending, run, answer),
        21 => log_commit_to(log, settled, pending, a),
        22 => log_maybe_commit(log, settled, pending, a, b, answer),
        23 => log_applied_to(log, settled, pending, a),
        24 => log_maybe_persist(log, settled, pending, a, b, answer),
        _ => log_stable_entries(log, settled, pending, a, b),
    }
}

// The call of that number, from 11 to 29.
// Its slices stay apart: the borrow checker of today's Rattle does not cover a struct of several `&mut [u64]` that a call takes apart.
fn call(
    name: u64,
    numbers: [u64; 3],
    run: &[u64],
    log: &mut [u64],
    settled: &mut [u64],
    pending: &mut [u64],
    answer: &mut [u64],
) -> Result<(), Refusal> {
    match name {
        11 | 19..=25 => write(name, numbers, run, log, settled, pending, answer),
        _ => read(name, numbers, log, settled, pending, answer),
    }
}

pub fn replay<W: Write>(out: &mut W, line: &[u64]) -> io::Result<()> {
    let mut log = [0u64; STATE];
    let mut settled = [0u64; STORE];
    let mut pending = [0u64; STORE];
    let mut answer = [0u64; STATE];
    let mut fields = Fields::of(line);
    let name = fields.number();
    let log = fields.copied(&mut log);
    let settled = fields.copied(&mut settled);
    let pending = fields.copied(&mut pending);
    let numbers = [fields.number(), fields.number(), fields.number()];
    let run = fields.slice();
    let answer = fields.copied(&mut answer);
    write_result(out, call(name, numbers, run, log, settled, pending, answer))?;
    write_words(out, log)?;
    write_words(out, settled)?;
    write_words(out, pending)?;
    write_words(out, answer)
}
