// Whether a detour can ever pay: a way of two lines that has a lower fixed amount or a lower rate than the line itself. Where none has, single lines are
// the cheapest routes for every size.
ghost use Rattle.std.specs.Prelude.{◌≤◌, ◌<◌, ◌≡◌, true};
ghost use Rattle.board.specs.Board.{sites_at};
ghost use Rattle.sender.specs.Delivering.{Carriable};
ghost use Rattle.sender.specs.Detours.{enough, OtherLines, DirectAt, DirectOver, DirectFrom, Direct};

use board::{BOARD, LINE_FIXED, LINE_RATE, NONE, sites_of};
use std::array;

// What a number is given before another is taken from it: the difference has it where nothing is missing.
const ENOUGH: u64 = 4 * NONE;

// More than any rate: what a way has in its rates for each closed line on it.
const DEAR: u64 = 1024;

// Where ways of two lines begin: a site, and the fixed amounts of its lines, nothing to itself.
#[derive(Drop)]
struct Ways<'a> {
    board: &'a [u64; BOARD],
    a: usize,
    lines: [u64; 8],
    ghost carriable: { Carriable board.now 0 },
    ghost listed: { a < sites_at board.now },
    ghost others: { OtherLines board.now a lines },
}

impl<'a> Ways<'a> {
    fn new(board: &'a [u64; BOARD], a: usize) -> Self
        requires { Carriable board.now 0 × (a < sites_at board.now) }
        ensures { (result.board.now ≡ board.entry.now) × (result.a ≡ a) }
    {
        let mut lines = array::from_fn(|t| board[8 * (LINE_FIXED + a) + t]);
        lines[a] = 0;
        Ways { board, a, lines }
    }

    // Enough where the way over m to t has no lower fixed amount and no lower rate than the line, or is closed.
    fn spare_at(&self, m: usize, t: usize) -> u64
        requires { (m < sites_at self.now.board.now) × (t < 8) }
        ensures { enough ≤ result → DirectAt self.now.board.now self.now.a m t }
    {
        let to = self.board[8 * (LINE_FIXED + self.a) + m];
        let on = self.board[8 * (LINE_FIXED + m) + t];
        let rates = self.board[8 * (LINE_RATE + self.a) + m] + self.board[8 * (LINE_RATE + m) + t];
        let closed = (to / NONE + on / NONE) * DEAR;
        let fixed = (ENOUGH + to + on) - self.lines[t];
        let rate = (ENOUGH + rates + closed) - self.board[8 * (LINE_RATE + self.a) + t];
        fixed & rate
    }

    // Enough where that holds of all ways over m.
    fn spare_over(&self, m: usize) -> u64
        requires { m < sites_at self.now.board.now }
        ensures { enough ≤ result → DirectOver self.now.board.now self.now.a m 8 }
    {
        let mut spare = ENOUGH;
        for t in 0..8 {
            spare &= self.spare_at(m, t);
        }
        spare
    }
}

// Whether no way from a can pay.
fn direct_from(board: &[u64; BOARD], a: usize) -> bool
    requires { Carriable board.now 0 × (a < sites_at board.now) }
    ensures { result ≡ true → DirectFrom board.now a (sites_at board.now) }
{
    let ways = Ways::new(board, a);
    (0..sites_of(board)).all(|m| ways.spare_over(m) >= ENOUGH)
}

// Whether no detour can. Two sites have none. What holds for all sizes is asked of the board alone.
pub fn is_direct(board: &[u64; BOARD]) -> bool
    requires { Carriable board.now 0 }
    ensures { result ≡ true → Direct board.now (sites_at board.now) }
{
    let sites = sites_of(board);
    sites <= 2 || (0..sites).all(|a| direct_from(board, a))
}
