// Delivered over single lines.
ghost use Rattle.std.specs.Prelude.{ℕ, get_or};
ghost use Rattle.board.specs.Figures.{Marked};
ghost use Rattle.board.specs.Board.{sites_at};
ghost use Rattle.sender.specs.Delivering.{DeliveredFrom};
ghost use Rattle.sender.specs.Detours.{Direct};

use crate::lines::Sending;
use board::sites_of;

impl Sending<'_> {
    // Each site sends once what it started with, which is enough where no detour pays.
    pub fn direct_row(self, row: [u64; 8]) -> [u64; 8]
        requires { Marked row × Direct self.board.now (sites_at self.board.now) }
        ensures { DeliveredFrom self.entry.board.now self.entry.size.0 (λ (k : ℕ). get_or row k 0) result }
    {
        let sites = sites_of(self.board);
        let mut best = row;
        for k in 0..sites {
            self.send_from(&mut best, row[k], k);
        }
        best
    }
}
