// Document 01's case on the window, and further ones: a ring that wraps, a deferred cap that takes effect, and each refusal.
// Every call that changes a window goes through the calls in place. A line says what the call answered, or what then lies there.
use crate::print::{item, number, refusal, text};
use inflights::{Inflights, in_place};
use std::io;
use units::refusal::Refusal;

// The word at a place, 0 outside the ring.
fn word(ring: &[u64], at: usize) -> u64 {
    ring.get(at).copied().unwrap_or(0)
}

// The place behind it.
fn behind(at: usize, n: usize) -> usize {
    if at < n && at + 1 < n { at + 1 } else { 0 }
}

fn flights(rt: &impl Print, w: Inflights, ring: &[u64]) -> io::Result<()> {
    let count = w.count;
    if count == 0 {
        return text(rt, ", no flights");
    }
    text(rt, ", flights ")?;
    let mut at = w.start;
    for i in 0..count {
        item(rt, i, word(ring, at))?;
        at = behind(at, ring.len());
    }
    Ok(())
}

fn waiting(rt: &impl Print, deferred: Option<usize>) -> io::Result<()> {
    match deferred {
        None => Ok(()),
        Some(cap) => number(rt, ", deferred cap ", cap as u64),
    }
}

fn room(rt: &impl Print, w: Inflights, ring: &[u64]) -> io::Result<()> {
    match w.full(ring) {
        Ok(true) => text(rt, ", full\n"),
        Ok(false) => text(rt, ", not full\n"),
        Err(_) => text(rt, "\n"),
    }
}

fn lies(rt: &impl Print, w: Inflights, ring: &[u64]) -> io::Result<()> {
    print!(rt; "start {}, cap {}", w.start, w.cap)?;
    waiting(rt, w.deferred)?;
    flights(rt, w, ring)?;
    room(rt, w, ring)
}

// The refusal of a call, or the window that it left.
fn line(
    rt: &impl Print,
    case: &str,
    said: Result<(), Refusal>,
    w: Inflights,
    ring: &[u64],
) -> io::Result<()> {
    print!(rt; "{case}: ")?;
    match said {
        Ok(()) => lies(rt, w, ring),
        Err(r) => refusal(rt, r),
    }
}

fn window(start: usize, count: usize, cap: usize, deferred: Option<usize>) -> Inflights {
    Inflights {
        start,
        count,
        cap,
        deferred,
    }
}

// A new window with these flights, one behind the other.
fn flown(cap: usize, ring: &mut [u64], flights: &[u64]) -> Inflights {
    let mut w = Inflights::new(cap, ring).unwrap_or(window(0, 0, 0, None));
    add_all(&mut w, ring, flights);
    w
}

// What has no room is left out.
fn add_all(w: &mut Inflights, ring: &mut [u64], flights: &[u64]) {
    for flight in flights {
        in_place::add(w, ring, *flight).unwrap_or(());
    }
}

// From place 2 on, past the ring's end.
fn turned(ring: &mut [u64]) -> Inflights {
    let mut w = flown(4, ring, &[1, 2, 3]);
    in_place::free_to(&mut w, ring, 2).unwrap_or(());
    add_all(&mut w, ring, &[4, 5, 6]);
    w
}

pub fn document_cases(rt: &impl Print, ring: &mut [u64]) -> io::Result<()> {
    let mut w = flown(4, ring, &[5, 5, 6]);
    let said = in_place::set_cap(&mut w, ring, 2);
    line(rt, "P  cap 4, flights 5,5,6; set_cap(2)", said, w, ring)?;
    let said = in_place::free_to(&mut w, ring, 5);
    line(rt, "P  then free_to(5)", said, w, ring)
}

// The document's case before its first call, and after its last.
fn around(rt: &impl Print, flown: Inflights, ring: &[u64]) -> io::Result<()> {
    let mut w = flown;
    line(rt, "   cap 4, flights 5,5,6", Ok(()), w, ring)?;
    in_place::set_cap(&mut w, ring, 2).unwrap_or(());
    in_place::free_to(&mut w, ring, 5).unwrap_or(());
    let said = in_place::free_to(&mut w, ring, 6);
    line(
        rt,
        "   after set_cap(2), free_to(5), free_to(6)",
        said,
        w,
        ring,
    )
}

// The same of an answer that is the window itself.
fn value_line(
    rt: &impl Print,
    case: &str,
    answer: Result<Inflights, Refusal>,
    ring: &[u64],
) -> io::Result<()> {
    print!(rt; "{case}: ")?;
    match answer {
        Ok(w) => lies(rt, w, ring),
        Err(r) => refusal(rt, r),
    }
}

// The same by value.
fn by_value(rt: &impl Print, w: Inflights, ring: &[u64]) -> io::Result<()> {
    let w = w.set_cap(ring, 2);
    value_line(rt, "   by value, set_cap(2)", w, ring)?;
    let w = w.unwrap_or(window(0, 0, 0, None)).free_to(ring, 5);
    value_line(rt, "   by value, then free_to(5)", w, ring)?;
    text(rt, "   by value, then count: ")?;
    match w.unwrap_or(window(0, 0, 0, None)).count(ring) {
        Ok(count) => println!(rt; "{count}"),
        Err(r) => refusal(rt, r),
    }
}

fn wrapped(rt: &impl Print, turned: Inflights, ring: &[u64]) -> io::Result<()> {
    let mut w = turned;
    line(rt, "   a ring that wraps", Ok(()), w, ring)?;
    let said = in_place::free_to(&mut w, ring, 4);
    line(rt, "   free_to(4) past the ring's end", said, w, ring)?;
    let said = in_place::free_to(&mut w, ring, 6);
    line(
        rt,
        "   free_to(6) empties, start stays behind",
        said,
        w,
        ring,
    )?;
    let said = in_place::maybe_free_buffer(&mut w, ring);
    line(rt, "   maybe_free_buffer", said, w, ring)
}

fn fronts(rt: &impl Print, flown: Inflights, ring: &[u64]) -> io::Result<()> {
    let mut w = flown;
    line(rt, "   a larger flight in front", Ok(()), w, ring)?;
    let said = in_place::free_to(&mut w, ring, 5);
    line(rt, "   free_to(5) frees none", said, w, ring)?;
    let said = in_place::free_first_one(&mut w, ring);
    line(rt, "   free_first_one frees all three", said, w, ring)?;
    let said = in_place::free_first_one(&mut w, ring);
    line(rt, "   free_first_one of an empty queue", said, w, ring)
}

// Each change of the deferred cap begins from the same window.
fn caps(rt: &impl Print, flown: Inflights, ring: &[u64]) -> io::Result<()> {
    let mut w = flown;
    let said = in_place::set_cap(&mut w, ring, 1);
    line(rt, "   set_cap(1) defers", said, w, ring)?;
    let mut t = w;
    let said = in_place::set_cap(&mut t, ring, 3);
    line(rt, "   set_cap(3) cancels", said, t, ring)?;
    let mut t = w;
    let said = in_place::set_cap(&mut t, ring, 4);
    line(rt, "   set_cap(4) takes effect and cancels", said, t, ring)?;
    let said = in_place::reset(&mut w, ring);
    line(rt, "   reset takes the deferred cap", said, w, ring)?;
    let said = in_place::set_cap(&mut w, ring, 0);
    line(rt, "   set_cap(0) of an empty queue", said, w, ring)
}

fn refused(rt: &impl Print, ring: &mut [u64]) -> io::Result<()> {
    value_line(rt, "   new(5), 4 words", Inflights::new(5, ring), ring)?;
    let mut w = flown(4, ring, &[]);
    let said = in_place::set_cap(&mut w, ring, 5);
    line(rt, "   set_cap(5), 4 words", said, w, ring)?;
    let mut w = flown(3, ring, &[1, 2, 3]);
    let said = in_place::add(&mut w, ring, 4);
    line(rt, "   add to a full window", said, w, ring)?;
    line(rt, "   which stays as it was", Ok(()), w, ring)
}

// A cap of 5 has no room in 4 words, but 13 comes before 7.
fn broken(rt: &impl Print, case: &str, window: Inflights, ring: &[u64]) -> io::Result<()> {
    let mut w = window;
    let said = in_place::set_cap(&mut w, ring, 5);
    line(rt, case, said, w, ring)
}

fn all_broken(rt: &impl Print, ring: &[u64]) -> io::Result<()> {
    broken(rt, "   count above cap", window(0, 3, 2, None), ring)?;
    broken(rt, "   cap above the ring", window(0, 3, 5, None), ring)?;
    broken(
        rt,
        "   a start outside the ring",
        window(4, 0, 4, None),
        ring,
    )?;
    broken(
        rt,
        "   a deferred cap that is not below cap",
        window(0, 3, 4, Some(4)),
        ring,
    )?;
    broken(
        rt,
        "   a deferred cap beside an empty queue",
        window(0, 0, 4, Some(2)),
        ring,
    )
}

fn queues(rt: &impl Print, ring: &mut [u64]) -> io::Result<()> {
    let w = flown(4, ring, &[5, 5, 6]);
    around(rt, w, ring)?;
    by_value(rt, w, ring)?;
    wrapped(rt, turned(ring), ring)
}

fn limits(rt: &impl Print, ring: &mut [u64]) -> io::Result<()> {
    fronts(rt, flown(4, ring, &[9, 1, 2]), ring)?;
    caps(rt, flown(3, ring, &[1, 2, 3]), ring)
}

pub fn further_cases(rt: &impl Print, ring: &mut [u64]) -> io::Result<()> {
    queues(rt, ring)?;
    limits(rt, ring)?;
    refused(rt, ring)?;
    all_broken(rt, ring)
}
