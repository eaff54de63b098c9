// Sets of relations, the joins between them, growth along joins, and the two parts of a subquery.
// In reading order: member (sets), masks (the joins as sets), growing (growth along them), tree (the tree test and the sides of
// the joins), splitting (the two parts).
#![tactic(auto)]

mod growing;
mod masks;
mod member;
mod splitting;
mod tree;

pub use masks::ends;
pub use member::{bit, single, whole, within};
pub use splitting::{Parts, split};
pub use tree::{reaches, sides};

// How many sets of relations arrays over sets have room for: those of nine relations.
pub const SETS: usize = 512;

// The joins of a query: join e links relations first[e] and second[e], for e below count. Lists with a count, since memory is
// fixed, and every definition reads them so.
#[derive(Clone, Copy)]
pub struct Joins {
    pub count: usize,
    pub first: [u8; 8],
    pub second: [u8; 8],
}
