// Filling the work area: the cells of every subquery but the whole query, sets in ascending number, so that both parts of a set were filled before it.
ghost use Rattle.std.specs.Prelude.{ℕ, ◌+◌, ◌≤◌, List, ◌≡◌, true, length, get_or};
ghost use Rattle.query.specs.declared.Query.{Query};
ghost use Rattle.tables.specs.Work.{most_cells};
ghost use Rattle.board.specs.Board.{sites_at};
ghost use Rattle.filler.specs.Cells.{reach, Stored};
ghost use Rattle.sender.specs.Detours.{Direct};
ghost use Rattle.filler.specs.Trials.{lent, size_in, Startable, start_in};
ghost use Rattle.sender.specs.Delivering.{DeliveredFrom};
ghost use Rattle.filler.specs.Filling.{Fillable, FilledFrom};

use crate::delivering::deliver;
use crate::trials::Tables;
use board::{BOARD, joins_of, sites_of};
use relations::{SETS, whole};
use sender::{Sending, is_direct};
use subqueries::{is_connected, joins_in};

// Fills the cells of one subquery from a place on, its joins given as bits: none for one relation. The places and the work area are written between two
// subqueries, so that what the trials read is put together here.
fn fill_set(
    board: &[u64; BOARD],
    sizes: &[u32; SETS],
    places: &[u32; SETS],
    work: &mut [u64],
    set: usize,
    joins: usize,
    at: usize,
    direct: bool,
)
    requires { (Startable (lent board.now sizes.now places.now work.old) joins set × (direct ≡ true → Direct board.now (sites_at board.now))) × ((at ≤ most_cells) × (at + reach (sites_at board.now) ≤ length work.old)) }
    ensures { (r : List ℕ) × (DeliveredFrom board.now (size_in (lent board.now sizes.now places.now work.old) set)
        (start_in ◌+◌ (lent board.now sizes.now places.now work.old) joins set) r ×
        Stored work.old work.new at (λ (t : ℕ). get_or r t 0) (reach (sites_at board.now))) }
{
    let tables = Tables {
        board,
        sizes,
        places,
        work: &*work,
    };
    let row = tables.start_row(set, joins);
    let size = tables.size_of(set);
    let sending = Sending { board, size };
    deliver(&mut *work, sending, row, at, direct);
}

// Fills the cells of every subquery but the whole query, notes where the first of each stands, and counts the joins in all of them.
pub fn fill(
    board: &[u64; BOARD],
    sizes: &[u32; SETS],
    table: &[u32; SETS],
    places: &mut [u32; SETS],
    work: &mut [u64],
) -> u64
    requires { (q : Query) × Fillable q (lent board.now sizes.now places.old work.old) table.now }
    ensures { (q : Query) → Fillable q (lent board.now sizes.now places.old work.old) table.now →
        FilledFrom ◌+◌ q work.old work.new places.new result }
{
    let sites = sites_of(board);
    let end = whole(joins_of(board) + 1);
    let direct = is_direct(board);
    let mut tried = 0;
    let mut next = 0;
    for set in 1..end {
        let entry = table[set];
        if is_connected(entry) {
            fill_set(
                board,
                sizes,
                &*places,
                &mut *work,
                set,
                joins_in(entry),
                next,
                direct,
            );
            places[set] = next as u32;
            next += sites;
            tried += u64::from(set.count_ones()) - 1;
        }
    }
    tried
}
