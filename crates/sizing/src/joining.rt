// The size once a relation has joined in.
ghost use Rattle.std.specs.Prelude.{◌≤◌, ◌≡◌};
ghost use Rattle.sizing.specs.Worked.{most_size, joined_size};

use crate::MOST_SIZE;

// size × rows / divisor, rounded up, and at most the largest size. The product is below 2^60.
pub(crate) fn joined_size(size: u32, rows: u32, divisor: u32) -> u32
    requires size_most { (size ≤ most_size) × (rows ≤ 1000000) }
    requires divisor_in_range { (1 ≤ divisor) × (divisor ≤ 1000000) }
    ensures { result ≡ joined_size size rows divisor }
{
    let all = u64::from(size) * u64::from(rows);
    let up = all.div_ceil(u64::from(divisor));
    up.min(MOST_SIZE) as u32
}
