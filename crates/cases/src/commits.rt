// The leader's commit step: of log A it commits only records of the leader's own term, and the log is looked at before the configuration.
use crate::log::{later, log_a, pending_a, settled_a};
use crate::print::{refusal, text};
use crate::quorums::{acking, half_broken, voters};
use leader::commit_found;
use peer_tables::joint::committed_index;
use quorum::joint::JointConfig;
use raft_log::Log;
use std::io;
use units::Term;
use units::refusal::Refusal;

fn decided(rt: &impl Print, answer: Result<Option<Log>, Refusal>) -> io::Result<()> {
    match answer {
        Ok(Some(log)) => println!(rt; "yes, committed {}", log.committed.0),
        Ok(None) => text(rt, "no\n"),
        Err(r) => refusal(rt, r),
    }
}

// Three voters with these acknowledgements.
fn leader_case(rt: &impl Print, term: u64, acks: &[u64]) -> io::Result<()> {
    let config = JointConfig::new(voters(&[1, 2, 3]));
    let found = committed_index(config, acking(acks));
    decided(
        rt,
        commit_found(log_a(), &settled_a(), &pending_a(), Term(term), found),
    )
}

// A half of the configuration is broken.
fn broken_case(rt: &impl Print, log: Log) -> io::Result<()> {
    let found = committed_index(half_broken(), acking(&[1]));
    decided(rt, commit_found(log, &settled_a(), &[], Term(3), found))
}

pub fn leader_cases(rt: &impl Print) -> io::Result<()> {
    text(
        rt,
        "   from A, leader of term 2, three voters acknowledged 5,4,3: ",
    )?;
    leader_case(rt, 2, &[5, 4, 3])?;
    text(
        rt,
        "   from A, leader of term 3, three voters acknowledged 5,4,3: ",
    )?;
    leader_case(rt, 3, &[5, 4, 3])?;
    text(
        rt,
        "   from A, leader of term 3, three voters acknowledged 5,5,3: ",
    )?;
    leader_case(rt, 3, &[5, 5, 3])?;
    text(
        rt,
        "   from A, leader of term 1, three voters acknowledged 5,2,2: ",
    )?;
    leader_case(rt, 1, &[5, 2, 2])?;
    text(
        rt,
        "   from A, leader of term 0, three voters acknowledged 9,9,9: ",
    )?;
    leader_case(rt, 0, &[9, 9, 9])?;
    text(rt, "   a broken half: ")?;
    broken_case(rt, later())?;
    text(rt, "   a broken half and a broken log: ")?;
    broken_case(rt, log_a())
}
