#![tactic(auto, unfolding(crate::specs::Words::unless_short))]
// The calls of crate inflights over words. Each tests that its slices are long enough, loads the window, calls, and writes last, the window or the value, so that a refusal writes nothing.
ghost use Rattle.std.specs.Prelude.{◌≡◌, [], ◌∷◌};
ghost use Rattle.units.specs.Refusals.{refusal_of};
ghost use Rattle.exports.specs.Words.{leaves};
ghost use Rattle.exports.specs.WindowCalls.{new_window_leaves, set_cap_leaves, add_leaves, free_to_leaves, free_first_one_leaves, reset_leaves, maybe_free_buffer_leaves, full_leaves, count_leaves};

use crate::window_words::{WINDOW, load_window, store_window};
use crate::words::{SINGLE, flag, long_enough};
use inflights::Inflights;
use units::refusal::Refusal;

// A window of no flights.
pub fn inflights_new(cap: u64, ring: &[u64], window: &mut [u64]) -> Result<(), Refusal>
    ensures { leaves (refusal_of result) (window.new ∷ []) ≡ new_window_leaves cap ring.now window.old }
{
    long_enough(window, WINDOW)?;
    let after = Inflights::new(cap as usize, ring)?;
    store_window(window, after);
    Ok(())
}

// Adjusts the cap, 0 included. A smaller one waits until the queue is empty.
pub fn inflights_set_cap(window: &mut [u64], ring: &[u64], cap: u64) -> Result<(), Refusal>
    ensures { leaves (refusal_of result) (window.new ∷ []) ≡ set_cap_leaves window.old ring.now cap }
{
    long_enough(window, WINDOW)?;
    let after = load_window(window).set_cap(ring, cap as usize)?;
    store_window(window, after);
    Ok(())
}

// Adds a flight behind the last one: the only call that writes a word of the ring.
pub fn inflights_add(window: &mut [u64], ring: &mut [u64], inflight: u64) -> Result<(), Refusal>
    ensures { leaves (refusal_of result) (ring.new ∷ window.new ∷ []) ≡ add_leaves window.old ring.old inflight }
{
    long_enough(window, WINDOW)?;
    let after = load_window(window).add(ring, inflight)?;
    store_window(window, after);
    Ok(())
}

// Frees the flights in front that are at most `to`, up to the first larger one.
pub fn inflights_free_to(window: &mut [u64], ring: &[u64], to: u64) -> Result<(), Refusal>
    ensures { leaves (refusal_of result) (window.new ∷ []) ≡ free_to_leaves window.old ring.now to }
{
    long_enough(window, WINDOW)?;
    let after = load_window(window).free_to(ring, to)?;
    store_window(window, after);
    Ok(())
}

// Frees the first flight, and with it those right behind it that are at most as large.
pub fn inflights_free_first_one(window: &mut [u64], ring: &[u64]) -> Result<(), Refusal>
    ensures { leaves (refusal_of result) (window.new ∷ []) ≡ free_first_one_leaves window.old ring.now }
{
    long_enough(window, WINDOW)?;
    let after = load_window(window).free_first_one(ring)?;
    store_window(window, after);
    Ok(())
}

// Frees all flights.
pub fn inflights_reset(window: &mut [u64], ring: &[u64]) -> Result<(), Refusal>
    ensures { leaves (refusal_of result) (window.new ∷ []) ≡ reset_leaves window.old ring.now }
{
    long_enough(window, WINDOW)?;
    let after = load_window(window).reset(ring)?;
    store_window(window, after);
    Ok(())
}

// Lets an empty queue begin at the ring's first word again.
pub fn inflights_maybe_free_buffer(window: &mut [u64], ring: &[u64]) -> Result<(), Refusal>
    ensures { leaves (refusal_of result) (window.new ∷ []) ≡ maybe_free_buffer_leaves window.old ring.now }
{
    long_enough(window, WINDOW)?;
    let after = load_window(window).maybe_free_buffer(ring)?;
    store_window(window, after);
    Ok(())
}

// Whether no flight can be added. Value: 1 for yes, 0 for no.
pub fn inflights_full(window: &[u64], ring: &[u64], answer: &mut [u64]) -> Result<(), Refusal>
    ensures { leaves (refusal_of result) (answer.new ∷ []) ≡ full_leaves window.now ring.now answer.old }
{
    long_enough(window, WINDOW)?;
    long_enough(answer, SINGLE)?;
    answer[0] = flag(load_window(window).full(ring)?);
    Ok(())
}

// Value: the number of flights.
pub fn inflights_count(window: &[u64], ring: &[u64], answer: &mut [u64]) -> Result<(), Refusal>
    ensures { leaves (refusal_of result) (answer.new ∷ []) ≡ count_leaves window.now ring.now answer.old }
{
    long_enough(window, WINDOW)?;
    long_enough(answer, SINGLE)?;
    answer[0] = load_window(window).count(ring)? as u64;
    Ok(())
}
