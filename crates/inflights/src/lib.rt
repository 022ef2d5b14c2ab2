#![tactic(auto)]
// The inflight window (tracker/inflights.rs of the crate): a queue of flights in a lent ring of words.
// Ported from raft 0.7.0, Copyright 2019 TiKV Project Authors, Copyright 2015 The etcd Authors, Apache-2.0 (see NOTICE).
// The state is handed in and back; `in_place` has the same calls on a window that is changed where it lies.
pub mod in_place;
mod ring;
mod state;

ghost use Rattle.std.specs.Prelude.{◌≡◌, length};
ghost use Rattle.inflights.specs.Calls.{made_window, capped, fullness, counted, added, ring_after, freed_to, freed_first, cleared, rewound};

use crate::ring::{freed, place};
use crate::state::{cap_fits, checked, empty, has_room, is_full, with_cap};
use units::refusal::Refusal;

// A window of flights. The words stand in a ring that the caller lends to each call, always the same one.
#[derive(Clone, Copy, Debug, PartialEq, Eq)]
pub struct Inflights {
    // the ring's place of the first flight
    pub start: usize,
    // number of flights
    pub count: usize,
    // at most so many flights
    pub cap: usize,
    // a smaller cap that waits until the queue is empty (the crate's `incoming_cap`)
    pub deferred: Option<usize>,
}

impl Inflights {
    // A window of no flights.
    #[tactic(auto, unfolding(crate::specs::Calls::made_window))]
    pub fn new(cap: usize, ring: &[u64]) -> Result<Inflights, Refusal>
        ensures { result ≡ made_window cap (length ring.now) }
    {
        cap_fits(cap, ring.len())?;
        Ok(empty(cap))
    }

    // Adjusts the cap, 0 included. A smaller one waits until the queue is empty.
    #[tactic(auto, unfolding(crate::specs::Calls::capped, crate::specs::Calls::set_cap_check))]
    pub fn set_cap(self, ring: &[u64], cap: usize) -> Result<Inflights, Refusal>
        ensures { result ≡ capped self (length ring.now) cap }
    {
        checked(self, ring.len())?;
        cap_fits(cap, ring.len())?;
        Ok(with_cap(self, cap))
    }

    // Whether no flight can be added.
    #[tactic(auto, unfolding(crate::specs::Calls::fullness))]
    pub fn full(self, ring: &[u64]) -> Result<bool, Refusal>
        ensures { result ≡ fullness self (length ring.now) }
    {
        checked(self, ring.len())?;
        Ok(is_full(self))
    }

    // Adds a flight behind the last one: the only call that writes a word.
    #[tactic(auto, using(crate::proofs::Facts::with_room, crate::proofs::Places::place_in), unfolding(crate::specs::Calls::added, crate::specs::Calls::ring_after, crate::specs::Calls::add_check))]
    pub fn add(self, ring: &mut [u64], inflight: u64) -> Result<Inflights, Refusal>
        ensures answer { result ≡ added self (length ring.old) }
        ensures words { ring.new ≡ ring_after self ring.old inflight }
    {
        let n = ring.len();
        checked(self, n)?;
        has_room(self)?;
        ring[place(self.start, self.count, n)] = inflight;
        Ok(Inflights {
            count: self.count + 1,
            ..self
        })
    }

    // Frees the flights in front that are at most `to`, up to the first larger one.
    #[tactic(auto, using(crate::proofs::Facts::window_sound), unfolding(crate::specs::Calls::freed_to))]
    pub fn free_to(self, ring: &[u64], to: u64) -> Result<Inflights, Refusal>
        ensures { result ≡ freed_to self ring.now to }
    {
        checked(self, ring.len())?;
        Ok(freed(self, ring, to))
    }

    // Frees the first flight, and with it those right behind it that are at most as large.
    #[tactic(auto, using(crate::proofs::Facts::window_sound, crate::proofs::Freeing::first_flight, crate::proofs::Freeing::frees_nothing), unfolding(crate::specs::Calls::freed_first, crate::specs::Calls::freed_to))]
    pub fn free_first_one(self, ring: &[u64]) -> Result<Inflights, Refusal>
        ensures { result ≡ freed_first self ring.now }
    {
        checked(self, ring.len())?;
        if self.count == 0 {
            return Ok(self);
        }
        Ok(freed(self, ring, ring[self.start]))
    }

    // Frees all flights, and takes up the cap that waits.
    #[tactic(auto, unfolding(crate::specs::Calls::cleared))]
    pub fn reset(self, ring: &[u64]) -> Result<Inflights, Refusal>
        ensures { result ≡ cleared self (length ring.now) }
    {
        checked(self, ring.len())?;
        Ok(empty(self.deferred.unwrap_or(self.cap)))
    }

    // Number of flights.
    #[tactic(auto, unfolding(crate::specs::Calls::counted))]
    pub fn count(self, ring: &[u64]) -> Result<usize, Refusal>
        ensures { result ≡ counted self (length ring.now) }
    {
        checked(self, ring.len())?;
        Ok(self.count)
    }

    // Lets an empty queue begin at the ring's first word again. (The crate frees its buffer here.)
    #[tactic(auto, unfolding(crate::specs::Calls::rewound, crate::specs::Calls::rewind))]
    pub fn maybe_free_buffer(self, ring: &[u64]) -> Result<Inflights, Refusal>
        ensures { result ≡ rewound self (length ring.now) }
    {
        checked(self, ring.len())?;
        if self.count != 0 {
            return Ok(self);
        }
        Ok(Inflights { start: 0, ..self })
    }
}
