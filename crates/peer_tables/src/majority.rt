// The questions of one voter set, on rows by value. A trait over a set and a configuration would be longer than the two lines that it saves here.
ghost use Rattle.std.specs.Prelude.{◌≡◌};
ghost use Rattle.peer_tables.specs.Table.{table_committed_index, table_vote_result};

use crate::Table;
use quorum::VoteResult;
use quorum::majority::Voters;
use units::Index;
use units::refusal::Refusal;

// How far a majority has acknowledged, by the table's rows.
pub fn committed_index(voters: Voters, table: Table) -> Result<(Index, bool), Refusal>
    ensures { result ≡ table_committed_index voters table }
{
    quorum::majority::committed_index(voters, table.rows()?)
}

// How the vote stands, by the table's rows.
pub fn vote_result(voters: Voters, table: Table) -> Result<VoteResult, Refusal>
    ensures { result ≡ table_vote_result voters table }
{
    quorum::majority::vote_result(voters, table.rows()?)
}
