// The prices. Only these functions turn bytes into parcels, and bytes or parcels into charge units. The checker and the solver both use them.
ghost use Rattle.std.specs.Prelude.{◌≡◌, ◌+◌, ◌-◌, ◌*◌, ◌^◌, ◌≤◌, ◌<◌, length};
ghost use Rattle.relations.specs.Code.{most_sets};
ghost use Rattle.query.specs.Prices.{parcels, line_charge, join_charge, most_parcels, dearest_line};
ghost use Rattle.query.specs.Indexed.{indexed_in};
ghost use Rattle.query.specs.Spared.{spareable, spared};

use crate::{Bytes, Charge, Parcels};

// A rate times a count of parcels or bytes: all that a line or a join charges beyond its fixed amount. Both have at most 32 bits: a short product.
fn rated(rate: u64, count: u64) -> Charge
    requires { (rate ≤ 1000) × (count ≤ 3000000000) }
    ensures { (result.0 ≡ rate * count) × (result.0 ≤ 1000 * count) }
{
    Charge((rate % 4294967296) * (count % 4294967296))
}

// The parcels that a size starts. Counted in 32 bits, which is what lets the compiler keep the product with a rate a short one.
fn parcels(size: Bytes) -> Parcels
    requires { size.0 ≤ 1000000000 }
    ensures { (result.0 ≡ parcels size.0) × (result.0 ≤ most_parcels) }
{
    let bytes = size.0 as u32;
    let started = (bytes + 7) / 8;
    Parcels(u64::from(started))
}

// What a line charges for the parcels that a size starts.
fn carried(rate: u64, size: Bytes) -> Charge
    requires { (rate ≤ 1000) × (size.0 ≤ 1000000000) }
    ensures { (result.0 ≡ rate * parcels size.0) × (result.0 ≤ dearest_line) }
{
    let started = parcels(size);
    rated(rate, started.0)
}

// The price of a line for what is sent: line fixed + line rate × started parcels.
pub fn line_price(fixed: Charge, rate: u64, size: Bytes) -> Charge
    requires { (fixed.0 ≤ 2 ^ 60) × ((rate ≤ 1000) × (size.0 ≤ 1000000000)) }
    ensures { (result.0 ≡ line_charge fixed.0 rate size.0) × (result.0 ≤ fixed.0 + dearest_line) }
{
    let sent = carried(rate, size);
    Charge(fixed.0 + sent.0)
}

// What the index of an operand can spare: its read, where it qualifies.
pub fn spareable(qualifies: bool, size: Bytes) -> Bytes
    ensures { (result.0 ≡ spareable qualifies size.0) × (result.0 ≤ size.0) }
{
    if qualifies { size } else { Bytes(0) }
}

// What a join spares, by what it can spare of each operand: it follows one index, that of the larger.
pub fn spared(one: Bytes, other: Bytes) -> Bytes
    ensures { result.0 ≡ spared one.0 other.0 }
{
    Bytes(one.0.max(other.0))
}

// The reads of a join: both operands' sizes, less what is spared.
pub fn reads(one: Bytes, other: Bytes, spared: Bytes) -> Bytes
    requires { ((one.0 ≤ 1000000000) × (other.0 ≤ 1000000000)) × (spared.0 ≤ one.0 + other.0) }
    ensures { (result.0 ≡ one.0 + other.0 - spared.0) × (result.0 ≤ 2000000000) }
{
    Bytes(one.0 + other.0 - spared.0)
}

// The price of a join: join fixed + join rate × (reads + size of the result).
pub fn join_price(fixed: Charge, rate: u64, reads: Bytes, res: Bytes) -> Charge
    requires { (fixed.0 ≤ 2 ^ 60) × ((rate ≤ 1000) × ((reads.0 ≤ 2000000000) × (res.0 ≤ 1000000000))) }
    ensures { (result.0 ≡ join_charge fixed.0 rate reads.0 res.0) × (result.0 ≤ fixed.0 + 3000000000000) }
{
    let work = Bytes(reads.0 + res.0);
    let done = rated(rate, work.0);
    Charge(fixed.0 + done.0)
}

// Whether a set at a site qualifies: it is one relation, the site is its home, and its index flag is set.
pub fn is_indexed(home: &[u8], index: &[u8], set: usize, site: usize) -> bool
    requires { (set < most_sets) × ((9 ≤ length home.now) × (9 ≤ length index.now)) }
    ensures { result ≡ indexed_in 9 home.now index.now set site }
{
    if set.count_ones() != 1 {
        return false;
    }
    let r = set.trailing_zeros() as usize;
    usize::from(home[r]) == site && index[r] == 1
}
