// Sizes worked out from row counts.
#![tactic(auto)]

mod joining;
mod neighbours;
mod working;

pub use working::work_out;

// The largest size.
pub const MOST_SIZE: u64 = 1000000000;

// The largest row count and divisor.
pub const MOST_ROWS: u64 = 1000000;
