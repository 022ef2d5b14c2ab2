// The window's own numbers, without its ring: what a sound state is, when it is full, and which cap it has.
ghost use Rattle.std.specs.Prelude.{◌≡◌};
ghost use Rattle.inflights.specs.State.{window_check, cap_check, is_full, room_check, empty_of};
ghost use Rattle.inflights.specs.Calls.{with_cap, take_up};

use crate::Inflights;
use units::refusal::Refusal;

// Refuses a broken state, for a ring of n words: an empty ring has start 0, and no deferred cap stands beside an empty queue.
#[tactic(auto, unfolding(crate::specs::State::window_check, crate::specs::State::sound, crate::specs::State::start_fits, crate::specs::State::deferred_fits))]
pub fn checked(w: Inflights, n: usize) -> Result<(), Refusal>
    ensures { result ≡ window_check w n }
{
    let start_fits = w.start == 0 || w.start < n;
    let deferred_fits = w.deferred.is_none_or(|cap| cap < w.cap && 0 < w.count);
    if w.cap < w.count || n < w.cap || !start_fits || !deferred_fits {
        return Err(Refusal::BrokenWindow);
    }
    Ok(())
}

// Refuses a cap that a ring of n words has no room for.
#[tactic(auto, unfolding(crate::specs::State::cap_check))]
pub fn cap_fits(cap: usize, n: usize) -> Result<(), Refusal>
    ensures { result ≡ cap_check cap n }
{
    if n < cap {
        return Err(Refusal::NoRoom);
    }
    Ok(())
}

// The count is the cap, or has reached a deferred one.
#[tactic(auto, unfolding(crate::specs::State::is_full))]
pub fn is_full(w: Inflights) -> bool
    ensures { result ≡ is_full w }
{
    w.count == w.cap || w.deferred.is_some_and(|cap| cap <= w.count)
}

// Refuses where the window is full.
#[tactic(auto, unfolding(crate::specs::State::room_check))]
pub fn has_room(w: Inflights) -> Result<(), Refusal>
    ensures { result ≡ room_check w }
{
    if is_full(w) {
        return Err(Refusal::WindowFull);
    }
    Ok(())
}

// A window of no flights, at the ring's first word.
pub fn empty(cap: usize) -> Inflights
    ensures { result ≡ empty_of cap }
{
    Inflights {
        start: 0,
        count: 0,
        cap,
        deferred: None,
    }
}

// The window with a new cap: at once where it is not smaller or the queue is empty, else deferred.
#[tactic(auto, unfolding(crate::specs::Calls::with_cap))]
pub fn with_cap(w: Inflights, cap: usize) -> Inflights
    ensures { result ≡ with_cap w cap }
{
    if w.cap <= cap {
        return Inflights {
            cap,
            deferred: None,
            ..w
        };
    }
    if w.count == 0 {
        return empty(cap);
    }
    Inflights {
        deferred: Some(cap),
        ..w
    }
}

// A queue that has become empty takes up the cap that waits.
#[tactic(auto, unfolding(crate::specs::Calls::take_up))]
pub fn take_up(w: Inflights) -> Inflights
    ensures { result ≡ take_up w }
{
    if w.count != 0 {
        return w;
    }
    w.deferred.map_or(w, empty)
}
