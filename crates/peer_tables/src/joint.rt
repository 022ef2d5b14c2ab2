// The questions of a joint configuration, on rows by value. A trait over a set and a configuration would be longer than the two lines that it saves here.
ghost use Rattle.std.specs.Prelude.{◌≡◌};
ghost use Rattle.peer_tables.specs.Table.{table_joint_committed_index, table_joint_vote_result};

use crate::Table;
use quorum::VoteResult;
use quorum::joint::JointConfig;
use units::Index;
use units::refusal::Refusal;

// How far a majority of both halves has acknowledged, by the table's rows.
pub fn committed_index(config: JointConfig, table: Table) -> Result<(Index, bool), Refusal>
    ensures { result ≡ table_joint_committed_index config table }
{
    quorum::joint::committed_index(config, table.rows()?)
}

// How the vote of both halves stands, by the table's rows.
pub fn vote_result(config: JointConfig, table: Table) -> Result<VoteResult, Refusal>
    ensures { result ≡ table_joint_vote_result config table }
{
    quorum::joint::vote_result(config, table.rows()?)
}
