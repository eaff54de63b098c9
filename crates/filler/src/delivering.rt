// The cells of a subquery: what is delivered at each site, stored in a row.
ghost use Rattle.std.specs.Prelude.{ℕ, ◌+◌, ◌≤◌, ◌≡◌, List, length, get_or, true};
ghost use Rattle.board.specs.Figures.{Marked};
ghost use Rattle.tables.specs.Work.{most_cells};
ghost use Rattle.filler.specs.Cells.{reach, Stored};
ghost use Rattle.board.specs.Board.{sites_at};
ghost use Rattle.sender.specs.Detours.{Direct};
ghost use Rattle.sender.specs.Delivering.{DeliveredFrom};

use crate::placing::reach;
use board::sites_of;
use sender::Sending;

// The cells of a subquery, two at a time. Those beyond its sites are the next row's, where a figure then stands until that row is stored.
fn store(work: &mut [u64], row: &[u64; 8], at: usize, sites: usize)
    requires { ((1 ≤ sites) × (at ≤ most_cells)) × (at + reach sites ≤ length work.old) }
    ensures { Stored work.old work.new at (λ (t : ℕ). get_or row.now t 0) (reach sites) }
{
    // By `copy_from_slice` a solve takes up to 3 % more instructions.
    for t in (0..reach(sites)).step_by(2) {
        work[at + t] = row[t];
        work[at + t + 1] = row[t + 1];
    }
}

// The cells of a subquery from what it has cost at each site where it can start from. Whether every line is direct is a fact on the board, and `fill` asks
// it once for all subqueries. Each row is stored where it is made, so that it is not moved before.
pub(crate) fn deliver(
    work: &mut [u64],
    sending: Sending<'_>,
    row: [u64; 8],
    at: usize,
    direct: bool,
)
    requires { ((1 ≤ sites_at sending.board.now) × (Marked row × (direct ≡ true → Direct sending.board.now (sites_at sending.board.now)))) × ((at ≤ most_cells) × (at + reach (sites_at sending.board.now) ≤ length work.old)) }
    ensures { (r : List ℕ) × (DeliveredFrom sending.entry.board.now sending.entry.size.0 (λ (k : ℕ). get_or row k 0) r ×
        Stored work.old work.new at (λ (t : ℕ). get_or r t 0) (reach (sites_at sending.entry.board.now))) }
{
    if direct {
        let cells = sending.direct_row(row);
        store(work, &cells, at, sites_of(sending.board));
        return;
    }
    let cells = sending.routed_row(row);
    store(work, &cells, at, sites_of(sending.board));
}
