// What every set of relations holds: its relations and its joins, worked out for all sets in one pass by doubling.
ghost use Rattle.std.specs.Prelude.{◌+◌, ◌*◌, ◌/◌, ◌%◌, ◌^◌, ◌≤◌, ◌<◌, ◌≡◌, eqb, length, get_or};
ghost use Rattle.std.specs.Int.Bits.{bit_and};
ghost use Rattle.relations.specs.Code.{Drawn, or_none};
ghost use Rattle.subqueries.specs.Table.{TableOf, is_connected, arrives, arriving, Upper, Roomy};

use relations::{Joins, SETS, ends, single};

// What one relation and one join add to an entry. The joins as a set, eight at most, stand below.
const RELATION: u32 = 65536;

const JOIN: u32 = 256;

// The sets with a new relation, whose mask is half: each holds what the set without it holds, and one relation more.
// By index: of what goes through the halves' `iter_mut` no contract tells.
fn double(table: &mut [u32; SETS], half: usize)
    requires { Roomy table.old half 0 20 }
    ensures { Upper table.old table.new half half (λ i. get_or table.old i 0 + 65536) }
{
    for set in 0..half {
        table[half + set] = table[set] + RELATION;
    }
}

// n where the part lies in the set, else 0.
fn if_within(set: u32, part: u32, n: u32) -> u32
    ensures { result ≡ or_none (eqb (bit_and set part) part) n }
{
    if set & part == part { n } else { 0 }
}

// A join between the new relation and the other, or of the new one with itself, where other is 0: it lies in each new set that holds the other.
fn link(table: &mut [u32; SETS], half: usize, other: u32, add: u32)
    requires { Roomy table.old half half 22 × (add < 2 ^ 22) }
    ensures { Upper table.old table.new half half (λ i. get_or table.old (half + i) 0 + or_none (eqb (bit_and i other) other) add) }
{
    for set in 0..half {
        table[half + set] += if_within(set as u32, other, add);
    }
}

// The same for a join with these ends, where the new relation is the highest of them; any other join changes nothing.
fn link_join(table: &mut [u32; SETS], half: usize, around: usize, add: u32)
    requires { Roomy table.old half half 22 × (add < 2 ^ 22) }
    ensures { Upper table.old table.new half half (λ i. get_or table.old (half + i) 0 + or_none (arrives half around i) add) }
{
    if (half..2 * half).contains(&around) {
        link(table, half, (around - half) as u32, add);
    }
}

// The sets with a new relation, whose mask is half: one relation more, and the joins that it brings.
fn add_relation(table: &mut [u32; SETS], ends: &[usize], half: usize)
    requires { Roomy table.old half 0 20 × (length ends.now ≤ 8) }
    ensures { Upper table.old table.new half half (λ i. get_or table.old i 0 + (65536 + arriving ends.now half i (length ends.now))) }
{
    double(table, half);
    for (e, around) in ends.iter().enumerate() {
        link_join(table, half, *around, JOIN + single(e) as u32);
    }
}

// The entry of every set of relations.
pub fn join_table(joins: Joins) -> [u32; SETS]
    requires { Drawn joins }
    ensures { TableOf joins result (2 ^ (joins.count + 1)) }
{
    let around = ends(joins);
    let mut table = [0; SETS];
    for r in 0..=joins.count {
        add_relation(&mut table, &around[..joins.count], single(r));
    }
    table
}

// The joins in the set of an entry, as a set of joins.
pub fn joins_in(entry: u32) -> usize
    ensures { result ≡ entry % 256 }
{
    (entry % JOIN) as usize
}

// The set of an entry holds one join fewer than relations.
pub fn is_connected(entry: u32) -> bool
    ensures { result ≡ is_connected entry }
{
    entry / JOIN % JOIN + 1 == entry / RELATION
}
