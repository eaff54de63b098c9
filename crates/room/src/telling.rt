// The call: judges n, s and the number of bytes, reads the pairs as they stand in a file, and tells the figures of the tree that they make.
ghost use Rattle.std.specs.Prelude.{◌≤◌, ◌≡◌, IsTrue};
ghost use Rattle.room.specs.Room.{in_limits, room};
ghost use Rattle.room.specs.Code.{of_room};

use crate::Figures;
use crate::counting::figures;
use query::Refusal;
use relations::reaches;
use sections::{Part, read_pairs};

// n and s are those of a file.
#[tactic(auto, unfolding(crate::specs::Room::in_limits))]
fn in_limits(n: u64, s: u64) -> bool
    ensures value { result ≡ in_limits n s }
    ensures within { IsTrue result → ((1 ≤ n) × (n ≤ 9)) × ((1 ≤ s) × (s ≤ 8)) }
{
    (1..=9).contains(&n) && (1..=8).contains(&s)
}

// Room: the subqueries, cells and trials of n relations at s sites with these joins, two bytes each.
#[tactic(auto, unfolding(crate::specs::Room::room))]
pub fn room(n: u64, s: u64, pairs: &[u8]) -> Result<Figures, Refusal>
    ensures { of_room result ≡ room n s pairs.now }
{
    if !in_limits(n, s) {
        return Err(Refusal::WrongCount);
    }
    let relations = n as usize;
    if pairs.len() != 2 * (relations - 1) {
        return Err(Refusal::WrongCount);
    }
    let joins = read_pairs(&mut Part::new(pairs), relations)?;
    if !reaches(joins) {
        return Err(Refusal::NotReached);
    }
    Ok(figures(joins, s))
}
