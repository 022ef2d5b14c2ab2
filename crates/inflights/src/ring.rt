// The ring's places, and the flights that stand there. What these functions require, the public calls have tested.
ghost use Rattle.std.specs.Prelude.{◌≡◌, ◌<◌, length};
ghost use Rattle.inflights.specs.State.{Sound};
ghost use Rattle.inflights.specs.Ring.{InRing, place_of, flights_from, leading};
ghost use Rattle.inflights.specs.Calls.{free_to};

use crate::Inflights;
use crate::state::take_up;

// The place i behind the start, in a ring of n words: the sum modulo n.
#[tactic(auto, using(crate::proofs::Places::place_low, crate::proofs::Places::go_round))]
pub fn place(start: usize, i: usize, n: usize) -> usize
    requires { InRing start i n }
    ensures { result ≡ place_of start i n }
{
    let rest = n - start;
    if i < rest {
        return start + i;
    }
    i - rest
}

// The place right behind.
#[tactic(auto, using(crate::proofs::Places::place_low, crate::proofs::Places::place_high))]
fn next(at: usize, n: usize) -> usize
    requires { at < n }
    ensures { result ≡ place_of at 1 n }
{
    let behind = at + 1;
    if behind < n {
        return behind;
    }
    0
}

// How many flights in front are at most `to`. The place is carried along: computed from the start each time, `free_to` took 15 per cent longer.
#[tactic(auto, using(crate::proofs::Leading::walk_stops, crate::proofs::Leading::walk_ends))]
fn lead(start: usize, count: usize, ring: &[u64], to: u64) -> usize
    requires { InRing start count (length ring.now) }
    ensures { result ≡ leading to (flights_from start count ring.now) }
{
    let n = ring.len();
    let mut at = start;
    for i in 0..count {
        if to < ring[at] {
            return i;
        }
        at = next(at, n);
    }
    count
}

// The window without those flights.
#[tactic(auto, using(crate::proofs::Leading::leading_at_most), unfolding(crate::specs::Calls::free_to))]
pub fn freed(w: Inflights, ring: &[u64], to: u64) -> Inflights
    requires { Sound w (length ring.now) }
    ensures { result ≡ free_to w ring.now to }
{
    let gone = lead(w.start, w.count, ring, to);
    take_up(Inflights {
        start: place(w.start, gone, ring.len()),
        count: w.count - gone,
        ..w
    })
}
