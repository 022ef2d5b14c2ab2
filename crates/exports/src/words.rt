// What a lent slice of words begins with: a log's state, or the values of an answer.
ghost use Rattle.std.specs.Prelude.{◌≡◌, Err, cond, [], ◌∷◌, ◌≤◌, length, ltb};
ghost use Rattle.units.specs.Refusals.{fine};
ghost use Rattle.units.specs.declared.refusal.Refusal.TheVariants as refusal;
ghost use Rattle.exports.specs.Words.{log_length, single_length, pair_length, log_from, log_words, flag_word, put};
ghost use Rattle.exports.specs.LogCalls.{decided_writes};

use quorum::joint::JointConfig;
use raft_log::Log;
use units::refusal::Refusal;
use units::{Index, Term};

// Words of a log's state: start, start term, offset, count, committed, persisted, applied.
pub const LOG: usize = 7;

// Words of an answer of two values.
pub const PAIR: usize = 2;

// Words of an answer of one value.
pub const SINGLE: usize = 1;

// Words of an answer of three values.
pub const TRIPLE: usize = 3;

// Words of an answer that names a part of a store: where, first index, index after the last, first word, how many words.
pub const PART: usize = 5;

// Words of an answer that lists ids: how many, and a word for each that there can be.
pub const IDS: usize = JointConfig::IDS + 1;

// 1 where a slice has fewer words than it is to have.
pub fn long_enough(slice: &[u64], words: usize) -> Result<(), Refusal>
    ensures { result ≡ cond (ltb (length slice.now) words) (Err refusal.BrokenState) fine }
{
    if slice.len() < words {
        return Err(Refusal::BrokenState);
    }
    Ok(())
}

// A yes or a no as a word: 1 for yes, 0 for no.
pub fn flag(b: bool) -> u64
    ensures { result ≡ flag_word b }
{
    u64::from(b)
}

// The log whose state a slice begins with. The slices are C's, so their lengths are asked of them here and where they are written.
#[tactic(auto, unfolding(crate::specs::Words::log_from))]
pub fn load(log: &[u64]) -> Log
    requires { log_length ≤ length log.now }
    ensures { result ≡ log_from log.now }
{
    Log {
        start: Index(log[0]),
        startterm: Term(log[1]),
        offset: Index(log[2]),
        count: log[3],
        committed: Index(log[4]),
        persisted: Index(log[5]),
        applied: Index(log[6]),
    }
}

// A log's state in place of the one that a slice begins with.
pub fn store(log: &mut [u64], after: Log)
    requires { log_length ≤ length log.old }
    ensures { log.new ≡ put log.old (log_words after) }
{
    log[0] = after.start.0;
    log[1] = after.startterm.0;
    log[2] = after.offset.0;
    log[3] = after.count;
    log[4] = after.committed.0;
    log[5] = after.persisted.0;
    log[6] = after.applied.0;
}

// Two values in place of those that a slice begins with.
pub fn store_pair(answer: &mut [u64], first: u64, second: u64)
    requires { pair_length ≤ length answer.old }
    ensures { answer.new ≡ put answer.old (first ∷ second ∷ []) }
{
    answer[0] = first;
    answer[1] = second;
}

// Yes, which is 1 and a new state, or no, which is 0 and the state as it was.
pub fn store_decided(log: &mut [u64], answer: &mut [u64], decided: Option<Log>)
    requires { (log_length ≤ length log.old) × (single_length ≤ length answer.old) }
    ensures { log.new ∷ answer.new ∷ [] ≡ decided_writes log.old answer.old decided }
{
    match decided {
        Some(after) => {
            store(log, after);
            answer[0] = flag(true);
        }
        None => answer[0] = flag(false),
    }
}
