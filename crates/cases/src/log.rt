// Document 01's cases on the log: each begins from log A.
use crate::print::{number, numbers, refusal, text};
use raft_log::{Appended, Log};
use std::io;
use units::refusal::Refusal;
use units::{Index, Term};

// Log A, in the document's words. It names no bodies; these are those of the table `DocumentCases`.
pub fn stated(rt: &impl Print) -> io::Result<()> {
    text(
        rt,
        "Log A: start (0,0); terms of 1 to 5 are 1,1,2,2,3; offset 4; ",
    )?;
    text(
        rt,
        "committed 2, persisted 3, applied 1; pending room 4 records. ",
    )?;
    text(
        rt,
        "Each case begins from A. P marks those proved together.\n",
    )?;
    text(rt, "Words are pending's, term and body of each record. ")?;
    text(
        rt,
        "The bodies of A are 1 to 5, those of a run 6 and more.\n",
    )
}

pub fn log_a() -> Log {
    Log {
        start: Index(0),
        startterm: Term(0),
        offset: Index(4),
        count: 2,
        committed: Index(2),
        persisted: Index(3),
        applied: Index(1),
    }
}

// Settled holds records 1 to 3; pending holds 4 and 5, and has room for two more.
pub fn settled_a() -> [u64; 6] {
    [1, 1, 1, 2, 2, 3]
}

pub fn pending_a() -> [u64; 8] {
    [2, 4, 3, 5, 0, 0, 0, 0]
}

fn term_case(rt: &impl Print, i: u64) -> io::Result<()> {
    match log_a().term(&settled_a(), &pending_a(), Index(i)) {
        Ok(term) => println!(rt; "{}", term.0),
        Err(r) => refusal(rt, r),
    }
}

// Pending ends at the log's last index.
fn last(rt: &impl Print, answer: Result<Index, Refusal>) -> io::Result<()> {
    match answer {
        Ok(index) => number(rt, " to ", index.0),
        Err(r) => number(rt, " to refusal ", r.number()),
    }
}

// The log and the pending words after a message.
fn after(rt: &impl Print, log: Log, pending: &[u64]) -> io::Result<()> {
    number(rt, ", offset ", log.offset.0)?;
    number(rt, ", pending ", log.offset.0)?;
    last(rt, log.last_index(&settled_a(), pending))?;
    number(rt, ", committed ", log.committed.0)?;
    number(rt, ", persisted ", log.persisted.0)?;
    text(rt, "; words ")?;
    numbers(rt, pending)?;
    text(rt, "\n")
}

fn append_case(rt: &impl Print, idx: u64, term: u64, commit: u64, run: &[u64]) -> io::Result<()> {
    let mut pending = pending_a();
    match log_a().maybe_append(
        &settled_a(),
        &mut pending,
        Index(idx),
        Term(term),
        Index(commit),
        run,
    ) {
        Ok(
            Appended {
                conflict,
                last,
                log,
            },
        ) => {
            print!(rt; "({}, {})", conflict.0, last.0)?;
            after(rt, log, &pending)
        }
        Err(r) => refusal(rt, r),
    }
}

fn found(rt: &impl Print, answer: Result<(Index, Option<Term>), Refusal>) -> io::Result<()> {
    match answer {
        Ok((index, Some(term))) => println!(rt; "({},{})", index.0, term.0),
        Ok((index, None)) => println!(rt; "{}, none", index.0),
        Err(r) => refusal(rt, r),
    }
}

fn by_term_case(rt: &impl Print, i: u64, t: u64) -> io::Result<()> {
    found(
        rt,
        log_a().find_conflict_by_term(&settled_a(), &pending_a(), Index(i), Term(t)),
    )
}

// A log that starts at (10,4) and holds nothing.
pub fn later() -> Log {
    Log {
        start: Index(10),
        startterm: Term(4),
        offset: Index(11),
        count: 0,
        committed: Index(10),
        persisted: Index(10),
        applied: Index(10),
    }
}

fn later_case(rt: &impl Print, i: u64, t: u64) -> io::Result<()> {
    found(
        rt,
        later().find_conflict_by_term(&[], &[], Index(i), Term(t)),
    )
}

pub fn term_cases(rt: &impl Print) -> io::Result<()> {
    text(rt, "P  term(0) = ")?;
    term_case(rt, 0)?;
    text(rt, "P  term(5) = ")?;
    term_case(rt, 5)?;
    text(rt, "P  term(6) = ")?;
    term_case(rt, 6)
}

// Where the document names no commit it is 0, and where it names no run the run is empty.
pub fn append_cases(rt: &impl Print) -> io::Result<()> {
    text(rt, "P  idx 5, term 3, empty, commit 9: ")?;
    append_case(rt, 5, 3, 9, &[])?;
    text(
        rt,
        "P  idx 3, term 2, records (4,2),(5,4),(6,4), commit 4: ",
    )?;
    append_case(rt, 3, 2, 4, &[4, 2, 6, 5, 4, 7, 6, 4, 8])?;
    text(rt, "P  idx 2, term 1, record (3,5), commit 2: ")?;
    append_case(rt, 2, 1, 2, &[3, 5, 6])?;
    text(rt, "P  idx 1, term 1, record (2,7): ")?;
    append_case(rt, 1, 1, 0, &[2, 7, 6])?;
    text(rt, "P  idx 5, term 2: ")?;
    append_case(rt, 5, 2, 0, &[])?;
    text(rt, "P  idx 9, term 0, empty, commit 2: ")?;
    append_case(rt, 9, 0, 2, &[])?;
    text(rt, "   idx 5, term 3: two more records give ")?;
    append_case(rt, 5, 3, 0, &[6, 3, 6, 7, 3, 7])?;
    text(rt, "   idx 5, term 3: three more records give ")?;
    append_case(rt, 5, 3, 0, &[6, 3, 6, 7, 3, 7, 8, 3, 8])?;
    text(rt, "   idx 2, term 1, record (3,2), commit 0: ")?;
    append_case(rt, 2, 1, 0, &[3, 2, 6])
}

pub fn by_term_cases(rt: &impl Print) -> io::Result<()> {
    text(rt, "P  find_conflict_by_term: (5,2) gives ")?;
    by_term_case(rt, 5, 2)?;
    text(rt, "P  find_conflict_by_term: (5,1) gives ")?;
    by_term_case(rt, 5, 1)?;
    text(rt, "P  find_conflict_by_term: (5,0) gives ")?;
    by_term_case(rt, 5, 0)?;
    text(rt, "P  find_conflict_by_term: (6,9) gives ")?;
    by_term_case(rt, 6, 9)?;
    text(
        rt,
        "P  find_conflict_by_term, with start (10,4): (10,3) gives ",
    )?;
    later_case(rt, 10, 3)
}
