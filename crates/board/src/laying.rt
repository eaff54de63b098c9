// Laying out the board of a query, row by row.
ghost use Rattle.std.specs.Prelude.{ℕ, ◌≤◌, ◌<◌, ◌≡◌, eqb, get_or};
ghost use Rattle.query.specs.Query.{Valid, home, sites_of, relations_of};
ghost use Rattle.query.specs.Spared.{spareable, spared};
ghost use Rattle.board.specs.Board.{lane, BoardOf, spareable_of, line_fixed_of, line_rate_of};
ghost use Rattle.board.specs.Laying.{Laid, JoiningLaid, RelationsLaid, PairsLaid, LinesLaid, if_flagged};

use crate::figures::NONE;
use crate::lanes::{
    BOARD, ENDS, FIXED, HOMES, JOINS, LINE_FIXED, LINE_RATE, PAIRS, RATE, SIDES, SITES, SPAREABLE,
};
use query::price::spared;
use query::{Bytes, Query};
use relations::{ends, sides, single};
use std::array;

// Stores a row.
fn lay(board: &mut [u64; BOARD], i: usize, row: [u64; 8])
    requires { i < 40 }
    ensures { Laid board.old board.new i (λ (k : ℕ). get_or row k 0) 8 }
{
    board[8 * i..8 * i + 8].copy_from_slice(&row);
}

// An amount where the flag is set, else none.
fn if_flagged(flag: u8, amount: u32) -> u64
    ensures { result ≡ if_flagged flag amount }
{
    if flag == 1 { u64::from(amount) } else { NONE }
}

// The rows of the joins and of joining. A site that may not join has no fixed amount.
fn lay_joining(board: &mut [u64; BOARD], q: &Query)
    requires { Valid q.now }
    ensures { JoiningLaid board.old board.new q.now }
{
    let ends = ends(q.joins);
    let sides = sides(q.joins);
    let fixed = array::from_fn(|k| if_flagged(q.sites.may[k], q.sites.fixed[k]));
    lay(board, ENDS, ends.map(|s| s as u64));
    lay(board, SIDES, sides.map(|s| s as u64));
    lay(board, FIXED, fixed);
    lay(board, RATE, q.sites.rate.map(|r| u64::from(r)));
}

// Notes in a row what can be spared of one operand more, at the site where it stands: a join follows one index, so the larger stays.
fn spare(board: &mut [u64; BOARD], i: usize, site: usize, size: Bytes)
    requires { (i < 40) × (site < 8) }
    ensures { Laid board.old board.new i (λ (k : ℕ). spared (lane board.old i k) (spareable (eqb site k) size.0)) 8 }
{
    let at = 8 * i + site;
    let larger = spared(Bytes(board[at]), size);
    board[at] = larger.0;
}

// Notes in a row what the index of relation r can spare: its size at its home.
fn spare_relation(board: &mut [u64; BOARD], i: usize, q: &Query, r: usize)
    requires { (i < 40) × ((r < 9) × (home q.now r < 8)) }
    ensures { Laid board.old board.new i (λ (k : ℕ). spared (lane board.old i k) (spareable_of q.now r k)) 8 }
{
    if q.relations.index[r] == 1 {
        let size = Bytes(u64::from(q.sizes[single(r)]));
        let site = usize::from(q.relations.home[r]);
        spare(board, i, site, size);
    }
}

// The rows of the relations.
fn lay_relations(board: &mut [u64; BOARD], q: &Query)
    requires { Valid q.now }
    ensures { RelationsLaid board.old board.new q.now (relations_of q.now) }
{
    for r in 0..q.relations.count {
        let homes = single(usize::from(q.relations.home[r]));
        board[HOMES + r] = homes as u64;
        spare_relation(board, SPAREABLE + r, q, r);
    }
}

// The rows of the joins: what is spared where their two relations are joined.
fn lay_pairs(board: &mut [u64; BOARD], q: &Query)
    requires { Valid q.now }
    ensures { PairsLaid board.old board.new q.now q.now.joins.count }
{
    for e in 0..q.joins.count {
        spare_relation(board, PAIRS + e, q, usize::from(q.joins.first[e]));
        spare_relation(board, PAIRS + e, q, usize::from(q.joins.second[e]));
    }
}

// The fixed amount of the line from k to t: none where it is closed, and from a site to itself.
fn line_fixed(q: &Query, k: usize, t: usize) -> u64
    requires { (k < 8) × (t < 8) }
    ensures { result ≡ line_fixed_of q.now k t }
{
    if k == t {
        return NONE;
    }
    if_flagged(q.lines.flag[8 * k + t], q.lines.fixed[8 * k + t])
}

// The rate of the line from k to t, which is nothing from a site to itself.
fn line_rate(q: &Query, k: usize, t: usize) -> u64
    requires { (k < 8) × (t < 8) }
    ensures { result ≡ line_rate_of q.now k t }
{
    if k == t {
        return 0;
    }
    u64::from(q.lines.rate[8 * k + t])
}

// The rows of the lines.
fn lay_lines(board: &mut [u64; BOARD], q: &Query)
    requires { Valid q.now }
    ensures { LinesLaid board.old board.new q.now (sites_of q.now) }
{
    for k in 0..q.sites.count {
        lay(
            board,
            LINE_FIXED + k,
            array::from_fn(|t| line_fixed(q, k, t)),
        );
        lay(board, LINE_RATE + k, array::from_fn(|t| line_rate(q, k, t)));
    }
}

// The board of a query.
pub fn laid_out(q: &Query) -> [u64; BOARD]
    requires { Valid q.now }
    ensures { BoardOf q.now result }
{
    let mut board = [0u64; BOARD];
    lay_joining(&mut board, q);
    lay_relations(&mut board, q);
    lay_pairs(&mut board, q);
    lay_lines(&mut board, q);
    board[JOINS] = q.joins.count as u64;
    board[SITES] = q.sites.count as u64;
    board
}
