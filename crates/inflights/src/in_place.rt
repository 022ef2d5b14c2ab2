// The calls that change a window, where it lies: each stores back the window that the call by value answers.
// Beside a refusal nothing has changed. Both forms of a call stay, since PROMISES.md has a promise of each.
ghost use Rattle.std.specs.Prelude.{◌≡◌, length};
ghost use Rattle.inflights.specs.Calls.{capped, added, ring_after, freed_to, freed_first, cleared, rewound};
ghost use Rattle.inflights.specs.InPlace.{step_of, Stored};

use crate::Inflights;
use units::refusal::Refusal;

pub fn set_cap(w: &mut Inflights, ring: &[u64], cap: usize) -> Result<(), Refusal>
    ensures { Stored result w.new (step_of w.old (capped w.old (length ring.now) cap)) }
{
    *w = w.set_cap(ring, cap)?;
    Ok(())
}

pub fn add(w: &mut Inflights, ring: &mut [u64], inflight: u64) -> Result<(), Refusal>
    ensures step { Stored result w.new (step_of w.old (added w.old (length ring.old))) }
    ensures words { ring.new ≡ ring_after w.old ring.old inflight }
{
    *w = w.add(ring, inflight)?;
    Ok(())
}

pub fn free_to(w: &mut Inflights, ring: &[u64], to: u64) -> Result<(), Refusal>
    ensures { Stored result w.new (step_of w.old (freed_to w.old ring.now to)) }
{
    *w = w.free_to(ring, to)?;
    Ok(())
}

pub fn free_first_one(w: &mut Inflights, ring: &[u64]) -> Result<(), Refusal>
    ensures { Stored result w.new (step_of w.old (freed_first w.old ring.now)) }
{
    *w = w.free_first_one(ring)?;
    Ok(())
}

pub fn reset(w: &mut Inflights, ring: &[u64]) -> Result<(), Refusal>
    ensures { Stored result w.new (step_of w.old (cleared w.old (length ring.now))) }
{
    *w = w.reset(ring)?;
    Ok(())
}

pub fn maybe_free_buffer(w: &mut Inflights, ring: &[u64]) -> Result<(), Refusal>
    ensures { Stored result w.new (step_of w.old (rewound w.old (length ring.now))) }
{
    *w = w.maybe_free_buffer(ring)?;
    Ok(())
}
