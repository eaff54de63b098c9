// The trials of a set at so many lanes: two, four or all eight. What is read beyond the sites is the next row.
ghost use Rattle.std.specs.Prelude.{ℕ, ◌+◌, ◌≤◌, ◌<◌, ◌≡◌};
ghost use Rattle.board.specs.Board.{sites_at};
ghost use Rattle.board.specs.Figures.{Marked};
ghost use Rattle.filler.specs.Cells.{reach};
ghost use Rattle.filler.specs.Trials.{lent_of, Triable, trial_of, Joinable, joined_in};
ghost use Rattle.sender.specs.Rows.{AtSites, TriedFrom};

use crate::trials::Tables;
use board::{NONE, lesser, side_at, spared_row};
use relations::{Parts, split};

impl Tables<'_> {
    // The row with the trials of one split where they are less.
    fn try_lanes<const LANES: usize>(&self, row: &mut [u64; 8], parts: Parts, spared: usize)
        requires { (Marked row.old × (LANES ≤ 8)) × ((k : ℕ) → k < LANES → Triable (lent_of self.now) parts.first parts.second spared k) }
        ensures { TriedFrom row.old row.new (trial_of ◌+◌ (lent_of self.now) parts.first parts.second spared) 0 LANES }
    {
        for k in 0..LANES {
            row[k] = lesser(self.trial(parts, spared, k), row[k]);
        }
    }

    // The row of a set over its joins, which are given as bits: the least trial at each site.
    pub(crate) fn joined_lanes<const LANES: usize>(&self, set: usize, joins: usize) -> [u64; 8]
        requires { Joinable (lent_of self.now) joins set × (LANES ≡ reach (sites_at self.now.board.now)) }
        ensures { AtSites (sites_at self.now.board.now) result (joined_in ◌+◌ (lent_of self.now) joins set) × Marked result }
    {
        let mut row = [NONE; 8];
        let mut left = joins;
        while left != 0 {
            let e = left.trailing_zeros() as usize;
            let parts = split(set, side_at(self.board, e));
            self.try_lanes::<LANES>(&mut row, parts, spared_row(parts, e));
            left &= left - 1;
        }
        row
    }
}
