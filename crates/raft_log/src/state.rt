// The state rules.
ghost use Rattle.std.specs.Prelude.{◌≡◌, eqb};
ghost use Rattle.raft_log.specs.State.{agree, state_ok};

use crate::Log;
use crate::words::room;
use units::Index;

pub fn both_zero_or_none(a: u64, b: u64) -> bool
    ensures { result ≡ agree (eqb a 0) (eqb b 0) }
{
    (a == 0) == (b == 0)
}

// Whether the state rules hold: no sum wraps, whatever the numbers.
pub fn state_ok(log: Log, settled: &[u64], pending: &[u64]) -> bool
    ensures { result ≡ state_ok log settled.now pending.now }
{
    let start = log.start.0;
    let start_term = log.startterm.0;
    let offset = log.offset.0;
    let count = log.count;
    let committed = log.committed.0;
    let persisted = log.persisted.0;
    let applied = log.applied.0;
    if !both_zero_or_none(start, start_term) {
        return false;
    }
    if offset <= start {
        return false;
    }
    if offset <= persisted {
        return false;
    }
    if persisted < applied {
        return false;
    }
    if applied < start {
        return false;
    }
    if committed < applied {
        return false;
    }
    if count > Index::LIMIT {
        return false;
    }
    if offset - 1 > Index::LIMIT - count {
        return false;
    }
    if committed > offset - 1 + count {
        return false;
    }
    if offset - 1 - start > room(settled) {
        return false;
    }
    if count > room(pending) {
        return false;
    }
    true
}
