#![tactic(auto)]
// Document 01's cases, run on the code: a line a case, in the document's order and as near to its words as a line allows.
// Behind them stand further cases, by subject. What a line says after the case itself is what the code answered.
mod commits;
mod log;
mod print;
mod quorums;
mod window;

use print::text;
use std::io;

// The document's section "Cases", whole. A line with a P is proved too, in the table `DocumentCases` of crate promises.
fn document(rt: &impl Print, ring: &mut [u64]) -> io::Result<()> {
    log::stated(rt)?;
    log::term_cases(rt)?;
    log::append_cases(rt)?;
    log::by_term_cases(rt)?;
    quorums::index_cases(rt)?;
    quorums::joint_cases(rt)?;
    quorums::vote_cases(rt)?;
    window::document_cases(rt, ring)
}

fn further(rt: &impl Print, ring: &mut [u64]) -> io::Result<()> {
    text(rt, "\nFurther cases: quorums\n")?;
    quorums::further_cases(rt)?;
    text(rt, "\nFurther cases: the leader's commit step\n")?;
    commits::leader_cases(rt)?;
    text(rt, "\nFurther cases: the window\n")?;
    window::further_cases(rt, ring)
}

fn run(rt: &impl Print, ring: &mut [u64]) -> io::Result<()> {
    document(rt, ring)?;
    further(rt, ring)
}

fn main(rt: HostRuntime) -> io::Result<()> {
    let mut ring = [9u64; 4];
    run(&rt, &mut ring)
}
