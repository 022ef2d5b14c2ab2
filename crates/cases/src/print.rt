// A line of standard output, piece by piece.
use std::io;
use units::refusal::Refusal;

pub fn text(rt: &impl Print, words: &str) -> io::Result<()> {
    rt.print(words)
}

// A number, and what stands before it.
pub fn number(rt: &impl Print, before: &str, n: u64) -> io::Result<()> {
    print!(rt; "{before}{n}")
}

// One number of a list, at its place in it.
pub fn item(rt: &impl Print, place: usize, n: u64) -> io::Result<()> {
    if 0 < place {
        text(rt, ",")?;
    }
    number(rt, "", n)
}

pub fn numbers(rt: &impl Print, list: &[u64]) -> io::Result<()> {
    for (place, n) in list.iter().enumerate() {
        item(rt, place, *n)?;
    }
    Ok(())
}

// A refusal is the whole answer, so it ends the line.
pub fn refusal(rt: &impl Print, refusal: Refusal) -> io::Result<()> {
    println!(rt; "refusal {}", refusal.number())
}
