// Delivered over routes of lines: the sites send one after the other, the nearest first.
ghost use Rattle.std.specs.Prelude.{ℕ, ◌≤◌, ◌<◌, ◌≡◌, ◌⊎◌, get_or};
ghost use Rattle.relations.specs.Sets.{bit};
ghost use Rattle.board.specs.Figures.{Marked};
ghost use Rattle.sender.specs.Delivering.{DeliveredFrom, Nearest};

use crate::lines::Sending;
use board::sites_of;
use relations::{bit, single, whole};

// The site k, where it is left and has a lesser figure than the site at; else that one.
fn nearer(row: &[u64; 8], left: usize, k: usize, at: usize) -> usize
    requires { (k < 8) × (at < 8) }
    ensures { ((result ≡ k) × ((bit left k ≡ 1) × (get_or row.now k 0 < get_or row.now at 0))) ⊎ ((result ≡ at) × (bit left k ≡ 1 → get_or row.now at 0 ≤ get_or row.now k 0)) }
{
    if bit(left, k) == 1 && row[k] < row[at] {
        k
    } else {
        at
    }
}

// A site with the least figure of some sites, which are given as bits. For `min_by_key` over the filtered sites no proof was found, and with the test of
// `nearer` in the loop itself a solve with detours takes 2.5 % more instructions.
fn nearest(row: &[u64; 8], left: usize) -> usize
    requires { (0 < left) × (left < 256) }
    ensures { Nearest row.now left result }
{
    let mut at = left.trailing_zeros() as usize;
    for k in 0..8 {
        at = nearer(row, left, k, at);
    }
    at
}

impl Sending<'_> {
    // Delivered over routes: the nearest site that is left sends over its lines, until none is left. What comes later starts from no less, so it
    // undercuts no site that has sent.
    pub fn routed_row(self, row: [u64; 8]) -> [u64; 8]
        requires { Marked row }
        ensures { DeliveredFrom self.entry.board.now self.entry.size.0 (λ (k : ℕ). get_or row k 0) result }
    {
        let mut best = row;
        let mut left = whole(sites_of(self.board));
        while left != 0 {
            let k = nearest(&best, left);
            let figure = best[k];
            self.send_from(&mut best, figure, k);
            left -= single(k);
        }
        best
    }
}
