// The part of a store that bounds name, as the five words of an answer.
ghost use Rattle.std.specs.Prelude.{◌≡◌, Ok, ◌-◌, ◌*◌, ◌≤◌, length};
ghost use Rattle.units.specs.Units.{word_max};
ghost use Rattle.raft_log.specs.Words.{record_words};
ghost use Rattle.exports.specs.Words.{part_length, put};
ghost use Rattle.exports.specs.Reads.{part_words, bounds_words, NamesHeld};

use raft_log::{Bounds, Log};

// The store that holds a part, by number: what C is told.
const SETTLED: u64 = 1;

const PENDING: u64 = 2;

// The part of a store that the bounds name, which the store holds.
pub fn store_bounds(answer: &mut [u64], log: Log, settled: &[u64], pending: &[u64], bounds: Bounds)
    requires { (part_length ≤ length answer.old) × NamesHeld (Ok bounds) log settled.now pending.now }
    ensures { answer.new ≡ put answer.old (bounds_words log bounds) }
{
    match bounds {
        Bounds::Empty => store_part(answer, 0, 0, 0, 0),
        Bounds::Settled { low, high } => store_part(
            answer,
            SETTLED,
            log.start.0 + 1,
            low.0,
            high.0,
        ),
        Bounds::Pending { low, high } => store_part(answer, PENDING, log.offset.0, low.0, high.0),
    }
}

// The records from low up to high of a store whose first record is at index `first`.
fn store_part(answer: &mut [u64], store: u64, first: u64, low: u64, high: u64)
    requires { (part_length ≤ length answer.old) × (first ≤ low) × (low ≤ high) × ((high - first) * record_words ≤ word_max) }
    ensures { answer.new ≡ put answer.old (part_words store first low high) }
{
    let from = (low - first) as usize * Log::WORDS;
    let words = (high - low) as usize * Log::WORDS;
    answer[0] = store;
    answer[1] = low;
    answer[2] = high;
    answer[3] = from as u64;
    answer[4] = words as u64;
}
