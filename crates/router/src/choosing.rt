// Where a subquery is joined for delivery at a site, by what it has cost at each site and what it costs there.
ghost use Rattle.std.specs.Prelude.{ℕ, ◌+◌, ◌^◌, ◌≤◌, ◌<◌, ◌≡◌, get_or, MatchOption};
ghost use Rattle.board.specs.Figures.{none_mark, least_of, ChoiceOf, Marked};
ghost use Rattle.board.specs.Board.{sites_at};
ghost use Rattle.router.specs.Routing.{site_trial, SiteFor, once_sent};

use crate::routing::{carriage, least_at, routes_to};
use board::{Choice, sites_of};
use sender::Sending;

// The least figure at t and its lowest site, by what a set has cost at each site.
// Its tables of routes are not to stand on the stack once for each call of the writer, which calls itself.
#[inline(never)]
fn best_site(sending: Sending<'_>, row: &[u64; 8], t: usize) -> Choice
    requires { Marked row.now × (t < 8) }
    ensures { ChoiceOf (site_trial (λ (k : ℕ). get_or row.now k 0) sending.entry.board.now sending.entry.size.0 t) (sites_at sending.entry.board.now) result }
{
    let table = routes_to(sending, t);
    least_at(sites_of(sending.board), |k| {
        row[k] + carriage(sending.board, &table, k)
    })
}

// The lowest site at which a row has no more than a figure.
fn first_within(row: &[u64; 8], figure: u64) -> Option<usize>
    ensures { MatchOption result ((k : ℕ) → k < 8 → figure < get_or row.now k 0)
        (λ at. ((at < 8) × (get_or row.now at 0 ≤ figure)) × ((k : ℕ) → k < at → figure < get_or row.now k 0)) }
{
    row.iter().position(|spent| *spent <= figure)
}

// What it costs to have it at t from k with at most one send.
fn once_sent(sending: Sending<'_>, k: usize, t: usize) -> u64
    requires { (k < sites_at sending.board.now) × (t < 8) }
    ensures { (result ≡ once_sent sending.entry.board.now sending.entry.size.0 k t) × (result < 2 ^ 61) }
{
    if k == t {
        return 0;
    }
    let sent = sending.line_at(k, t);
    sent.0
}

// The lowest site from where a figure at t is reached, and the carriage from there. Only a site that has cost no more than the figure can be it, so the
// lowest of these is, where one send from there makes up the figure; else the routes decide.
pub fn site_for(sending: Sending<'_>, row: &[u64; 8], t: usize, figure: u64) -> Choice
    requires marked { Marked row.now × (t < sites_at sending.board.now) }
    requires least { (figure ≡ least_of (site_trial (λ (k : ℕ). get_or row.now k 0) sending.board.now sending.size.0 t) (sites_at sending.board.now)) × (figure < none_mark) }
    ensures { SiteFor (λ (k : ℕ). get_or row.now k 0) sending.entry.board.now sending.entry.size.0 t figure result }
{
    if let Some(k) = first_within(row, figure) {
        let sent = once_sent(sending, k, t);
        if row[k] + sent == figure {
            return Choice {
                figure: sent,
                at: k,
            };
        }
    }
    let best = best_site(sending, row, t);
    let at = best.at;
    Choice {
        figure: figure - row[at],
        at,
    }
}
