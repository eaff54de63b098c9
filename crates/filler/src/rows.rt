// What a subquery has cost at each site where it can start from: where its one relation stands, else where it is joined.
ghost use Rattle.std.specs.Prelude.{◌+◌, ◌≡◌};
ghost use Rattle.board.specs.Board.{sites_at};
ghost use Rattle.board.specs.Figures.{Lanes, Marked};
ghost use Rattle.filler.specs.Trials.{lent_of, Joinable, Startable, joined_in, bare_at, start_in};
ghost use Rattle.sender.specs.Rows.{AtSites};

use crate::placing::reach;
use crate::trials::Tables;
use board::{NONE, homes_at, sites_of};
use relations::bit;
use std::array;

// Nothing where the relation stands, none elsewhere.
fn stands(homes: usize, k: usize) -> u64
    ensures { result ≡ bare_at homes k }
{
    if bit(homes, k) == 1 { 0 } else { NONE }
}

// The row of one relation, by the sites where it stands.
fn bare_row(homes: usize) -> [u64; 8]
    ensures { Lanes result (bare_at homes) × Marked result }
{
    array::from_fn(|k| stands(homes, k))
}

impl Tables<'_> {
    // The row of a set over its joins, which are given as bits: the least trial at each site. The number of sites is asked for here and not at each join,
    // so that the row stays in registers.
    pub fn joined_row(&self, set: usize, joins: usize) -> [u64; 8]
        requires { Joinable (lent_of self.now) joins set }
        ensures { AtSites (sites_at self.now.board.now) result (joined_in ◌+◌ (lent_of self.now) joins set) × Marked result }
    {
        match reach(sites_of(self.board)) {
            2 => self.joined_lanes::<2>(set, joins),
            4 => self.joined_lanes::<4>(set, joins),
            _ => self.joined_lanes::<8>(set, joins),
        }
    }

    // What a subquery has cost at each site where it can start from, its joins given as bits: none for one relation.
    pub fn start_row(&self, set: usize, joins: usize) -> [u64; 8]
        requires { Startable (lent_of self.now) joins set }
        ensures { AtSites (sites_at self.now.board.now) result (start_in ◌+◌ (lent_of self.now) joins set) × Marked result }
    {
        if joins == 0 {
            let r = set.trailing_zeros() as usize;
            return bare_row(homes_at(self.board, r));
        }
        self.joined_row(set, joins)
    }
}
