// The cheapest routes of lines to a site: how many sends they have, and where these go.
ghost use Rattle.std.specs.Prelude.{ℕ, ◌+◌, ◌*◌, ◌≤◌, ◌<◌, ◌≡◌, get_or};
ghost use Rattle.board.specs.Figures.{none_mark, least_of, ChoiceOf};
ghost use Rattle.board.specs.Board.{sites_at};
ghost use Rattle.router.specs.Routing.{first_to, Figured, SendsAdded, RoutesTo};

use board::{BOARD, Choice, NONE, better, lesser, sites_of};
use sender::Sending;

// How many figures a table of routes has: those of up to seven sends, a lane a site. Flat as the board is, and not a list of rows: one law of stores at
// 8 * i + k serves reading a row while the next is written.
pub(crate) const ROUTES: usize = 64;

// The least of the figures at the sites below a number of them, and its lowest site.
pub(crate) fn least_at<F: Fn(usize) -> u64>(sites: usize, figure: F) -> Choice
    requires { (k : ℕ) → k < sites → F.pre figure k }
    ensures { (g : ℕ → ℕ) → ((k v : ℕ) → k < sites → F.post figure k v → v ≡ g k) → ChoiceOf g sites result }
{
    let mut best = Choice {
        figure: NONE,
        at: 0,
    };
    for k in 0..sites {
        best = better(figure(k), k, best);
    }
    best
}

// The lowest next site of the cheapest route of i + 1 sends from k, by a table with the figures of i sends.
pub(crate) fn next_site(sending: Sending<'_>, table: &[u64; ROUTES], i: usize, k: usize) -> Choice
    requires { (k < sites_at sending.board.now) × ((i < 8) × Figured table.now) }
    ensures { ChoiceOf (first_to sending.entry.board.now sending.entry.size.0 k (λ (m : ℕ). get_or table.now (8 * i + m) 0)) (sites_at sending.entry.board.now) result }
{
    least_at(sites_of(sending.board), |m| {
        let sent = sending.line_at(k, m);
        sent.0 + table[8 * i + m]
    })
}

// The figures of i + 1 sends, by those of i sends.
pub(crate) fn add_sends(table: &mut [u64; ROUTES], sending: Sending<'_>, i: usize)
    requires { (i < 7) × Figured table.old }
    ensures { SendsAdded sending.entry.board.now sending.entry.size.0 i table.old table.new (sites_at sending.entry.board.now) }
{
    for k in 0..sites_of(sending.board) {
        let best = next_site(sending, table, i, k);
        table[8 * (i + 1) + k] = best.figure;
    }
}

// The figures of every number of sends from every site to t.
pub(crate) fn routes_to(sending: Sending<'_>, t: usize) -> [u64; ROUTES]
    requires { t < 8 }
    ensures { RoutesTo sending.entry.board.now sending.entry.size.0 t (sites_at sending.entry.board.now) result }
{
    let mut table = [NONE; ROUTES];
    table[t] = 0;
    for i in 1..sites_of(sending.board) {
        add_sends(&mut table, sending, i - 1);
    }
    table
}

// The figure of the cheapest route from k, by a table with those of every number of sends.
pub(crate) fn carriage(board: &[u64; BOARD], table: &[u64; ROUTES], k: usize) -> u64
    requires { (sites_at board.now ≤ 8) × ((k < 8) × Figured table.now) }
    ensures { (result ≡ least_of (λ (i : ℕ). get_or table.now (8 * i + k) 0) (sites_at board.now)) × (result ≤ none_mark) }
{
    let mut least = NONE;
    for i in 0..sites_of(board) {
        least = lesser(table[8 * i + k], least);
    }
    least
}
