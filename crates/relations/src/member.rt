// Membership in a set of relations, the set of one relation and that of all.
ghost use Rattle.std.specs.Prelude.{◌^◌, ◌<◌, ◌≡◌, eqb};
ghost use Rattle.std.specs.Int.Bits.{bit_and};
ghost use Rattle.relations.specs.Sets.{bit, all};

// 1 where relation r is in the set, else 0.
pub fn bit(set: usize, r: usize) -> usize
    ensures value { result ≡ bit set r }
    ensures small { result < 2 }
{
    if r < 64 { (set >> r) % 2 } else { 0 }
}

// The part lies in the set whole.
pub fn within(set: usize, part: usize) -> bool
    ensures { result ≡ eqb (bit_and set part) part }
{
    set & part == part
}

// The set of relation r alone.
pub fn single(r: usize) -> usize
    requires { r < 64 }
    ensures { result ≡ 2 ^ r }
{
    1 << r
}

// The set of the n relations 0 to n - 1.
pub fn whole(n: usize) -> usize
    requires { n < 64 }
    ensures { result ≡ all n }
{
    single(n) - 1
}
