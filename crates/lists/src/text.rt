// What a line says is written: numbers, a space before each but the first.
use std::io;
use std::io::Write;
use units::refusal::{Refusal, code};

// The result of a call begins its line: 0, or the refusal's number.
pub fn write_result<W: Write>(out: &mut W, said: Result<(), Refusal>) -> io::Result<()> {
    write!(out, "{}", code(said))
}

pub fn write_words<W: Write>(out: &mut W, words: &[u64]) -> io::Result<()> {
    for word in words {
        write!(out, " {word}")?;
    }
    Ok(())
}

// A line whose call is unknown.
pub fn write_unknown<W: Write>(out: &mut W) -> io::Result<()> {
    out.write_all(b"?")
}

pub fn end_line<W: Write>(out: &mut W) -> io::Result<()> {
    out.write_all(b"\n")
}
