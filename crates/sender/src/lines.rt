// What a line charges, and a site that sends over its lines.
ghost use Rattle.std.specs.Prelude.{ℕ, ◌+◌, ◌≤◌, ◌<◌, ◌≡◌};
ghost use Rattle.query.specs.Prices.{dearest_line};
ghost use Rattle.board.specs.Figures.{none_mark, Marked};
ghost use Rattle.board.specs.Board.{sites_at};
ghost use Rattle.sender.specs.Rows.{TriedAt};
ghost use Rattle.sender.specs.Delivering.{line_in, Carriable};

use board::{BOARD, LINE_FIXED, LINE_RATE, lesser};
use query::price::line_price;
use query::{Bytes, Charge};

// A result of some size, and the board over whose lines it is sent.
#[derive(Clone, Copy)]
pub struct Sending<'a> {
    pub board: &'a [u64; BOARD],
    pub size: Bytes,
    pub ghost carriable: { Carriable board.now size.0 },
}

impl Sending<'_> {
    // What the line from site k to site t charges for it.
    pub fn line_at(self, k: usize, t: usize) -> Charge
        requires { (k < sites_at self.board.now) × (t < 8) }
        ensures { (result.0 ≡ line_in self.entry.board.now self.entry.size.0 k t) × (result.0 ≤ none_mark + dearest_line) }
    {
        let fixed = Charge(self.board[8 * (LINE_FIXED + k) + t]);
        line_price(fixed, self.board[8 * (LINE_RATE + k) + t], self.size)
    }

    // The row with what comes from site k, where it has cost a figure, over its lines, where that is less.
    pub(crate) fn send_from(self, best: &mut [u64; 8], figure: u64, k: usize)
        requires { Marked best.old × ((figure ≤ none_mark) × (k < sites_at self.board.now)) }
        ensures { TriedAt 8 best.old best.new (λ (t : ℕ). figure + line_in self.entry.board.now self.entry.size.0 k t) × Marked best.new }
    {
        for t in 0..8 {
            let sent = self.line_at(k, t);
            best[t] = lesser(figure + sent.0, best[t]);
        }
    }
}
