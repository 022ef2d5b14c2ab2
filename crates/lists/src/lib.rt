#![tactic(auto)]
// Lists of calls through crate exports: a line of standard input is a call, and a line of standard output says what it gave.
// A line is decimal numbers apart by single spaces, the call's own number first; a slice stands as its length and then its words.
// The answer is the result and the words, without lengths, of every slice that a call of its kind may write; for an unknown call it is `?` alone.
mod leading;
mod line;
mod log;
mod quorums;
mod reader;
mod text;
mod window;

ghost use Rattle.std.specs.Prelude.{◌≤◌, IfOk};
ghost use Rattle.lists.specs.Limits.{longest_line};

use crate::reader::Reader;
use crate::text::{end_line, write_unknown};
use std::io;
use std::io::{Read, Write};

// The call of one line. A list names a call by its number, here and in the modules: an enum with `TryFrom` would say each of the 40 numbers and names twice more.
fn replay_line<W: Write>(out: &mut W, line: &[u64]) -> io::Result<()> {
    match line.first().copied().unwrap_or(0) {
        1..=9 => window::replay(out, line)?,
        11..=29 => log::replay(out, line)?,
        30 => leading::replay(out, line)?,
        31..=41 => quorums::replay(out, line)?,
        _ => write_unknown(out)?,
    }
    end_line(out)
}

// The line that the first words make.
fn replay_first<W: Write>(out: &mut W, words: &[u64], count: usize) -> io::Result<()> {
    match words.get(..count) {
        Some(line) => replay_line(out, line),
        None => Ok(()),
    }
}

// One byte more: a line feed ends the line.
fn step<W: Write>(out: &mut W, words: &mut [u64], reader: Reader, byte: u8) -> io::Result<Reader> {
    if byte != b'\n' {
        return Ok(reader.with(words, byte));
    }
    let whole = reader.ended(words);
    replay_first(out, words, whole.count)?;
    Ok(Reader::after(0))
}

// Some bytes more.
fn feed<W: Write>(
    out: &mut W,
    words: &mut [u64],
    reader: Reader,
    bytes: &[u8],
) -> io::Result<Reader> {
    let mut now = reader;
    for byte in bytes {
        now = step(out, words, now, *byte)?;
    }
    Ok(now)
}

// How many bytes are read at a time.
const BYTES: usize = 4096;

// The bytes of one read, and how far the line is then read; none where the input has ended.
fn read_some<I: Read, W: Write>(
    input: &mut I,
    out: &mut W,
    words: &mut [u64],
    reader: Reader,
) -> io::Result<Option<Reader>> {
    let mut bytes = [0u8; BYTES];
    let got = input.read(&mut bytes)?;
    if got == 0 {
        return Ok(None);
    }
    Ok(Some(feed(out, words, reader, &bytes[..got])?))
}

// A proved loop has to end, and nothing says that the input does: it counts its turns from a number that no run uses up.
fn read_all<I: Read, W: Write>(
    input: &mut I,
    out: &mut W,
    words: &mut [u64],
) -> io::Result<Reader> {
    let mut reader = Reader::after(0);
    for _ in 0..u64::MAX {
        match read_some(input, out, words, reader)? {
            Some(next) => reader = next,
            None => break,
        }
    }
    Ok(reader)
}

// The longest line has so many numbers; of a longer one the rest is not read, and the lists have none.
pub const LINE: usize = 512;

// The whole list, from standard input to standard output. Answers how many numbers stand behind the last line feed: none, where the list is whole.
// An error is that of a read or a write that failed, and ends it: nothing was lent that it could leave changed.
pub fn replay(rt: &(impl Input + Print)) -> io::Result<usize>
    ensures { IfOk result (λ count. count ≤ longest_line) }
{
    let mut words = [0u64; LINE];
    let left = read_all(&mut rt.reader(), &mut io::writer(rt), &mut words)?;
    Ok(left.count.min(LINE))
}
