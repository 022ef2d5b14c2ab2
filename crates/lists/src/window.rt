// The calls on the inflight window.
//     in:  call window ring number answer        out:  result window ring answer
use crate::line::{Fields, STATE, STORE};
use crate::text::{write_result, write_words};
use exports::window::{
    inflights_add, inflights_count, inflights_free_first_one, inflights_free_to, inflights_full,
    inflights_maybe_free_buffer, inflights_new, inflights_reset, inflights_set_cap,
};
use std::io;
use std::io::Write;
use units::refusal::Refusal;

// The call of that number, from 1 to 9, which is the last arm.
fn call(
    name: u64,
    window: &mut [u64],
    ring: &mut [u64],
    number: u64,
    answer: &mut [u64],
) -> Result<(), Refusal> {
    match name {
        1 => inflights_new(number, ring, window),
        2 => inflights_set_cap(window, ring, number),
        3 => inflights_add(window, ring, number),
        4 => inflights_free_to(window, ring, number),
        5 => inflights_free_first_one(window, ring),
        6 => inflights_reset(window, ring),
        7 => inflights_maybe_free_buffer(window, ring),
        8 => inflights_full(window, ring, answer),
        _ => inflights_count(window, ring, answer),
    }
}

pub fn replay<W: Write>(out: &mut W, line: &[u64]) -> io::Result<()> {
    let mut window = [0u64; STATE];
    let mut ring = [0u64; STORE];
    let mut answer = [0u64; STATE];
    let mut fields = Fields::of(line);
    let name = fields.number();
    let window = fields.copied(&mut window);
    let ring = fields.copied(&mut ring);
    let number = fields.number();
    let answer = fields.copied(&mut answer);
    write_result(out, call(name, window, ring, number, answer))?;
    write_words(out, window)?;
    write_words(out, ring)?;
    write_words(out, answer)
}
