#![tactic(auto)]
// Majority and joint quorums (quorum.rs of the crate): how far a set of voters has acknowledged, and how its vote stands.
// Ported from raft 0.7.0, Copyright 2020 TiKV Project Authors, Apache-2.0 (see NOTICE).
pub mod half;
mod ids;
pub mod joint;
mod lookup;
pub mod majority;
pub mod rows;
mod sort;

// The outcome of a vote.
#[derive(Clone, Copy, Debug, PartialEq, Eq)]
pub enum VoteResult {
    // Neither yes nor no has a quorum: the missing votes decide.
    Pending,
    // No majority can say yes any more.
    Lost,
    // A majority has said yes.
    Won,
}
