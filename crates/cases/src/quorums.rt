// Document 01's cases on the quorums, and further ones: nobody to ask, the calls on a configuration, and refusal 12.
use crate::print::{numbers, refusal, text};
use peer_tables::{Table, joint, majority};
use quorum::VoteResult;
use quorum::joint::{Ids, JointConfig};
use quorum::majority::Voters;
use quorum::rows::{Peer, Rows};
use std::io;
use units::Index;
use units::refusal::Refusal;

fn committed(rt: &impl Print, answer: Result<(Index, bool), Refusal>) -> io::Result<()> {
    match answer {
        Ok((index, false)) => println!(rt; "{}", index.0),
        Ok((index, true)) => println!(rt; "{} (nobody to ask)", index.0),
        Err(r) => refusal(rt, r),
    }
}

fn verdict(rt: &impl Print, answer: Result<VoteResult, Refusal>) -> io::Result<()> {
    match answer {
        Ok(result) => println!(rt; "{result:?}"),
        Err(r) => refusal(rt, r),
    }
}

fn told(rt: &impl Print, answer: Result<bool, Refusal>) -> io::Result<()> {
    match answer {
        Ok(true) => text(rt, "yes\n"),
        Ok(false) => text(rt, "no\n"),
        Err(r) => refusal(rt, r),
    }
}

fn ids(rt: &impl Print, answer: Result<Ids, Refusal>) -> io::Result<()> {
    match answer {
        Ok(list) => listed(rt, list.ids.get(..list.count).unwrap_or(&list.ids)),
        Err(r) => refusal(rt, r),
    }
}

fn listed(rt: &impl Print, ids: &[u64]) -> io::Result<()> {
    if ids.is_empty() {
        return text(rt, "none\n");
    }
    numbers(rt, ids)?;
    text(rt, "\n")
}

// The rows of ids 1, 2, 3 and so on, one for each thing said.
fn table<T: Copy, F: Fn(u64, T) -> Peer>(said: &[T], row: F) -> Table
    requires { F.IsAlwaysCallable row }
{
    let mut table = Table::empty();
    for (i, one) in said.iter().enumerate() {
        table = table.with(row(i as u64 + 1, *one));
    }
    table
}

pub fn acking(acks: &[u64]) -> Table {
    table(
        acks,
        |id, ack| Peer {
            id,
            ack: Some(Index(ack)),
            vote: None,
        },
    )
}

fn voting(votes: &[bool]) -> Table {
    table(
        votes,
        |id, yes| Peer {
            id,
            ack: None,
            vote: Some(yes),
        },
    )
}

// The set of these ids, the empty one where they are refused.
pub fn voters(ids: &[u64]) -> Voters {
    Voters::new(ids).unwrap_or(Voters::empty())
}

fn both(incoming: &[u64], outgoing: &[u64]) -> JointConfig {
    JointConfig {
        incoming: voters(incoming),
        outgoing: voters(outgoing),
    }
}

pub fn index_cases(rt: &impl Print) -> io::Result<()> {
    text(rt, "P  acknowledgements 2,2,2,4,5 give ")?;
    committed(
        rt,
        majority::committed_index(voters(&[1, 2, 3, 4, 5]), acking(&[2, 2, 2, 4, 5])),
    )?;
    text(rt, "P  acknowledgements 9,7,7,3 give ")?;
    committed(
        rt,
        majority::committed_index(voters(&[1, 2, 3, 4]), acking(&[9, 7, 7, 3])),
    )?;
    text(rt, "P  one 5 and two missing give ")?;
    committed(
        rt,
        majority::committed_index(voters(&[1, 2, 3]), acking(&[5])),
    )
}

pub fn joint_cases(rt: &impl Print) -> io::Result<()> {
    text(rt, "P  incoming 5,4,3 gives ")?;
    committed(
        rt,
        majority::committed_index(voters(&[1, 2, 3]), acking(&[5, 4, 3, 3, 8])),
    )?;
    text(rt, "P  outgoing 3,8 gives ")?;
    committed(
        rt,
        majority::committed_index(voters(&[4, 5]), acking(&[5, 4, 3, 3, 8])),
    )?;
    text(rt, "P  incoming 5,4,3, outgoing 3,8: joint ")?;
    committed(
        rt,
        joint::committed_index(both(&[1, 2, 3], &[4, 5]), acking(&[5, 4, 3, 3, 8])),
    )
}

pub fn vote_cases(rt: &impl Print) -> io::Result<()> {
    text(rt, "P  four voters, two yes, one no: ")?;
    verdict(
        rt,
        majority::vote_result(voters(&[1, 2, 3, 4]), voting(&[true, true, false])),
    )?;
    text(rt, "P  four voters, two yes, two no: ")?;
    verdict(
        rt,
        majority::vote_result(voters(&[1, 2, 3, 4]), voting(&[true, true, false, false])),
    )
}

fn answer_cases(rt: &impl Print) -> io::Result<()> {
    text(rt, "   acknowledged by no voters: ")?;
    committed(rt, majority::committed_index(Voters::empty(), acking(&[5])))?;
    text(rt, "   four voters, three yes: ")?;
    verdict(
        rt,
        majority::vote_result(voters(&[1, 2, 3, 4]), voting(&[true, true, true])),
    )?;
    text(rt, "   votes of no voters: ")?;
    verdict(rt, majority::vote_result(Voters::empty(), voting(&[false])))?;
    text(rt, "   joint of two empty halves: ")?;
    committed(rt, joint::committed_index(both(&[], &[]), acking(&[])))?;
    text(rt, "   won in one half, pending in the other: ")?;
    verdict(
        rt,
        joint::vote_result(both(&[1], &[2, 3]), voting(&[true, true])),
    )?;
    text(rt, "   won in one half, lost in the other: ")?;
    verdict(
        rt,
        joint::vote_result(both(&[1], &[2, 3]), voting(&[true, false])),
    )
}

fn set_cases(rt: &impl Print) -> io::Result<()> {
    text(rt, "   the ids of 3,1 and 2,1: ")?;
    ids(rt, both(&[3, 1], &[2, 1]).ids())?;
    text(rt, "   2 is one of them: ")?;
    told(rt, both(&[3, 1], &[2, 1]).contains(2))?;
    text(rt, "   4 is one of them: ")?;
    told(rt, both(&[3, 1], &[2, 1]).contains(4))?;
    text(rt, "   one voter alone is a singleton: ")?;
    told(rt, both(&[3], &[]).is_singleton())?;
    text(rt, "   one voter in each half is one: ")?;
    told(rt, both(&[3], &[3]).is_singleton())?;
    text(rt, "   the ids of a cleared configuration: ")?;
    ids(rt, both(&[3, 1], &[2]).clear().ids())
}

// A repeated id in the outgoing half.
pub fn half_broken() -> JointConfig {
    JointConfig {
        incoming: Voters::empty(),
        outgoing: Voters::holding(&[1, 1]),
    }
}

// Two rows of an id that no voter has.
fn repeated_row() -> Table {
    let row = Peer {
        id: 9,
        ack: None,
        vote: None,
    };
    Table::empty().with(row).with(row)
}

fn constructed(rt: &impl Print, ids: &[u64]) -> io::Result<()> {
    match Voters::new(ids) {
        Ok(_) => text(rt, "a set\n"),
        Err(r) => refusal(rt, r),
    }
}

fn refusal_cases(rt: &impl Print) -> io::Result<()> {
    text(rt, "   a constructor handed an id too many: ")?;
    constructed(rt, &[0; Voters::LIMIT + 1])?;
    text(rt, "   a constructor handed an id twice: ")?;
    constructed(rt, &[1, 1])?;
    text(rt, "   a voter too many: ")?;
    committed(
        rt,
        majority::committed_index(Voters::holding(&[0; Voters::LIMIT + 1]), acking(&[1])),
    )?;
    text(rt, "   a repeated voter: ")?;
    verdict(
        rt,
        majority::vote_result(Voters::holding(&[1, 1]), voting(&[true])),
    )?;
    text(rt, "   a repeated voter in the outgoing half: ")?;
    committed(rt, joint::committed_index(half_broken(), acking(&[1])))?;
    text(rt, "   no voters, a row too many: ")?;
    committed(
        rt,
        majority::committed_index(Voters::empty(), acking(&[0; Rows::LIMIT + 1])),
    )?;
    text(rt, "   a repeated row of no voter: ")?;
    committed(rt, majority::committed_index(voters(&[1]), repeated_row()))?;
    text(rt, "   the ids of a broken half: ")?;
    ids(rt, half_broken().ids())
}

pub fn further_cases(rt: &impl Print) -> io::Result<()> {
    answer_cases(rt)?;
    set_cases(rt)?;
    refusal_cases(rt)
}
