// The query and its prices.
#![tactic(auto)]

mod refusal;
mod zeros;

pub use refusal::Refusal;
use relations::{Joins, SETS};
pub use zeros::{no_joins, no_lines, no_query, no_relations, no_sites};

pub mod price;

// A count of bytes: a size. A join charges by it.
#[derive(Clone, Copy)]
pub struct Bytes(pub u64);

// A count of parcels of 8 bytes. A line charges by it.
#[derive(Clone, Copy)]
pub struct Parcels(pub u64);

// A count of charge units: a price or a cost.
#[derive(Clone, Copy, Default)]
pub struct Charge(pub u64);

// The sites: whether each may join (1) or not (0), and its join's fixed amount and rate. Here and below lists of fixed length,
// with a count where there may be fewer: memory is fixed, and every definition reads them so.
#[derive(Clone, Copy)]
pub struct Sites {
    pub count: usize,
    pub may: [u8; 8],
    pub fixed: [u32; 8],
    pub rate: [u32; 8],
}

// The relations: the home of each, and whether it has its index flag set (1) or not (0).
#[derive(Clone, Copy)]
pub struct Relations {
    pub count: usize,
    pub home: [u8; 9],
    pub index: [u8; 9],
}

// The lines: that from site a to site b stands at 8 * a + b. Flag 1 is open, 0 closed.
#[derive(Clone, Copy)]
pub struct Lines {
    pub flag: [u8; 64],
    pub fixed: [u32; 64],
    pub rate: [u32; 64],
}

// The terms of a site or a line: its flag, fixed amount and rate.
#[derive(Clone, Copy)]
pub struct Terms {
    pub flag: u8,
    pub fixed: u32,
    pub rate: u32,
}

// A query. The size of subquery S stands at S; where S is no subquery the size is 0.
#[derive(Clone, Copy)]
pub struct Query {
    pub sites: Sites,
    pub relations: Relations,
    pub joins: Joins,
    pub sizes: [u32; SETS],
    pub lines: Lines,
    pub target: usize,
}
