// The calls of `exports::window`, for C.
ghost use Rattle.std.specs.Prelude.{◌≡◌, [], ◌∷◌};
ghost use Rattle.exports.specs.Words.{leaves};
ghost use Rattle.exports.specs.WindowCalls.{new_window_leaves, set_cap_leaves, add_leaves, free_to_leaves, free_first_one_leaves, reset_leaves, maybe_free_buffer_leaves, full_leaves, count_leaves};

use units::refusal::code;

// A window of no flights.
#[unsafe(no_mangle)]
pub extern "C" fn inflights_new(cap: u64, ring: &[u64], window: &mut [u64]) -> u64
    ensures { leaves result (window.new ∷ []) ≡ new_window_leaves cap ring.now window.old }
{
    code(exports::window::inflights_new(cap, ring, window))
}

// Adjusts the cap, 0 included. A smaller one waits until the queue is empty.
#[unsafe(no_mangle)]
pub extern "C" fn inflights_set_cap(window: &mut [u64], ring: &[u64], cap: u64) -> u64
    ensures { leaves result (window.new ∷ []) ≡ set_cap_leaves window.old ring.now cap }
{
    code(exports::window::inflights_set_cap(window, ring, cap))
}

// Adds a flight behind the last one: the only call that writes a word of the ring.
#[unsafe(no_mangle)]
pub extern "C" fn inflights_add(window: &mut [u64], ring: &mut [u64], inflight: u64) -> u64
    ensures { leaves result (ring.new ∷ window.new ∷ []) ≡ add_leaves window.old ring.old inflight }
{
    code(exports::window::inflights_add(window, ring, inflight))
}

// Frees the flights in front that are at most `to`, up to the first larger one.
#[unsafe(no_mangle)]
pub extern "C" fn inflights_free_to(window: &mut [u64], ring: &[u64], to: u64) -> u64
    ensures { leaves result (window.new ∷ []) ≡ free_to_leaves window.old ring.now to }
{
    code(exports::window::inflights_free_to(window, ring, to))
}

// Frees the first flight, and with it those right behind it that are at most as large.
#[unsafe(no_mangle)]
pub extern "C" fn inflights_free_first_one(window: &mut [u64], ring: &[u64]) -> u64
    ensures { leaves result (window.new ∷ []) ≡ free_first_one_leaves window.old ring.now }
{
    code(exports::window::inflights_free_first_one(window, ring))
}

// Frees all flights.
#[unsafe(no_mangle)]
pub extern "C" fn inflights_reset(window: &mut [u64], ring: &[u64]) -> u64
    ensures { leaves result (window.new ∷ []) ≡ reset_leaves window.old ring.now }
{
    code(exports::window::inflights_reset(window, ring))
}

// Lets an empty queue begin at the ring's first word again.
#[unsafe(no_mangle)]
pub extern "C" fn inflights_maybe_free_buffer(window: &mut [u64], ring: &[u64]) -> u64
    ensures { leaves result (window.new ∷ []) ≡ maybe_free_buffer_leaves window.old ring.now }
{
    code(exports::window::inflights_maybe_free_buffer(window, ring))
}

// Whether no flight can be added. Value: 1 for yes, 0 for no.
#[unsafe(no_mangle)]
pub extern "C" fn inflights_full(window: &[u64], ring: &[u64], answer: &mut [u64]) -> u64
    ensures { leaves result (answer.new ∷ []) ≡ full_leaves window.now ring.now answer.old }
{
    code(exports::window::inflights_full(window, ring, answer))
}

// Value: the number of flights.
#[unsafe(no_mangle)]
pub extern "C" fn inflights_count(window: &[u64], ring: &[u64], answer: &mut [u64]) -> u64
    ensures { leaves result (answer.new ∷ []) ≡ count_leaves window.now ring.now answer.old }
{
    code(exports::window::inflights_count(window, ring, answer))
}
