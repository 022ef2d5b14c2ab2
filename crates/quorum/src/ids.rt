// Lists of ids: where one stands, and that none stands twice.
ghost use Rattle.std.specs.Prelude.{◌≡◌};
ghost use Rattle.quorum.specs.Ids.{position as position_of, has as has_of, distinct as distinct_of, check_of};

use units::refusal::Refusal;

// Where `id` first stands in `ids`; the length where it does not.
pub fn position(ids: &[u64], id: u64) -> usize
    ensures { result ≡ position_of id ids.now }
{
    ids.iter().position(|x| *x == id).unwrap_or(ids.len())
}

// Whether `id` stands in `ids`.
#[tactic(auto, unfolding(crate::specs::Ids::has))]
pub fn has(ids: &[u64], id: u64) -> bool
    ensures { result ≡ has_of id ids.now }
{
    position(ids, id) < ids.len()
}

// Whether no id stands twice.
#[tactic(auto, using(crate::proofs::IdLaws::distinct_none), unfolding(crate::specs::Ids::distinct))]
pub fn distinct(ids: &[u64]) -> bool
    ensures { result ≡ distinct_of ids.now }
{
    let mut left = ids;
    while let Some((id, rest)) = left.split_first() {
        if has(rest, *id) {
            return false;
        }
        left = rest;
    }
    true
}

// Whether the array has the first `count` ids, and none of them stands twice.
pub fn checked(ids: &[u64], count: usize) -> Result<(), Refusal>
    ensures { result ≡ check_of ids.now count }
{
    if count <= ids.len() && distinct(&ids[..count]) {
        Ok(())
    } else {
        Err(Refusal::BrokenSet)
    }
}
