// The board: the query as the loops take it, laid out once a solve in rows of eight lanes. Lane k of row i stands at 8 * i + k.
ghost use Rattle.std.specs.Prelude.{◌*◌, ◌+◌, ◌<◌, ◌≡◌};
ghost use Rattle.relations.specs.Code.{most_sets};
ghost use Rattle.board.specs.Board.{ends_at, side_at, operand_row, spared_row, homes_at, joins_at, sites_at};

use relations::Parts;

// How many entries it has: forty rows. An array and no struct of named rows: which row is read is often worked out, as for a sender or a set.
pub const BOARD: usize = 320;

// The ends and the side of each join, the fixed amount and the rate of joining at each site.
pub(crate) const ENDS: usize = 0;

pub(crate) const SIDES: usize = 1;

pub const FIXED: usize = 2;

pub const RATE: usize = 3;

// For each relation what its index can spare at each site; then for a joined result, of which nothing can be spared.
pub(crate) const SPAREABLE: usize = 4;

pub(crate) const NOTHING: usize = 13;

// For each sender the fixed amounts and the rates of its lines.
pub const LINE_FIXED: usize = 14;

pub const LINE_RATE: usize = 22;

// For each join what is spared at each site where its two relations are joined.
pub(crate) const PAIRS: usize = 30;

// The entries after the rows: for each relation the set of sites where it stands, and the numbers of joins and of sites.
pub(crate) const HOMES: usize = 304;

pub(crate) const JOINS: usize = 313;

pub(crate) const SITES: usize = 314;

// The ends of join e, as a set.
pub fn ends_at(board: &[u64; BOARD], e: usize) -> usize
    requires { e < 8 }
    ensures { result ≡ ends_at board.now e }
{
    board[8 * ENDS + e] as usize
}

// The relations on the first relation's side of join e.
pub fn side_at(board: &[u64; BOARD], e: usize) -> usize
    requires { e < 8 }
    ensures { result ≡ side_at board.now e }
{
    board[8 * SIDES + e] as usize
}

// The sites where relation r stands.
pub fn homes_at(board: &[u64; BOARD], r: usize) -> usize
    requires { r < 9 }
    ensures { result ≡ homes_at board.now r }
{
    board[HOMES + r] as usize
}

pub fn joins_of(board: &[u64; BOARD]) -> usize
    ensures { result ≡ joins_at board.now }
{
    board[JOINS] as usize
}

pub fn sites_of(board: &[u64; BOARD]) -> usize
    ensures { result ≡ sites_at board.now }
{
    board[SITES] as usize
}

// The row with what can be spared of a set: its relation's, or that of joined results.
fn operand_row(set: usize) -> usize
    requires { set < most_sets }
    ensures { (result ≡ operand_row set) × (result < 14) }
{
    if set.count_ones() == 1 {
        return SPAREABLE + set.trailing_zeros() as usize;
    }
    NOTHING
}

// The row with what is spared where two parts are joined by join e. Only two relations can both qualify, and these have the join's own row.
pub fn spared_row(parts: Parts, e: usize) -> usize
    requires { ((parts.first < most_sets) × (parts.second < most_sets)) × (e < 8) }
    ensures { (result ≡ spared_row parts.first parts.second e) × (result < 38) }
{
    if parts.first.count_ones() != 1 {
        return operand_row(parts.second);
    }
    if parts.second.count_ones() != 1 {
        return operand_row(parts.first);
    }
    PAIRS + e
}
