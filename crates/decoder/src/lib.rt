// The decoder of a query's file: the sizes of its subqueries by its form, and the whole file.
#![tactic(auto)]

mod decoding;
mod rows;
mod sizes;

pub use decoding::{Decoded, decode};

// Which sections a file has between Joins and Lines: the sizes of its subqueries, or row counts and divisors from which they are worked out.
#[derive(Clone, Copy)]
pub enum Form {
    Sizes,
    Rows,
}
