// The query as the loops of a solve take it: laid out once on a board, in rows of eight lanes, a lane a site.
// In reading order: figures (what a figure is, and none), lanes (what stands where on the board), laying (how it gets there).
#![tactic(auto)]

mod figures;
mod lanes;
mod laying;

pub use figures::{Choice, NONE, better, lesser};
pub use lanes::{
    BOARD, FIXED, LINE_FIXED, LINE_RATE, RATE, ends_at, homes_at, joins_of, side_at, sites_of,
    spared_row,
};
pub use laying::laid_out;
