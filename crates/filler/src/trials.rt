// What a trial is: two parts of a subquery, each delivered at a site, and the price of their join there.
ghost use Rattle.std.specs.Prelude.{◌+◌, ◌^◌, ◌≤◌, ◌<◌, ◌≡◌, get_or};
ghost use Rattle.relations.specs.Code.{most_sets};
ghost use Rattle.board.specs.Figures.{none_mark};
ghost use Rattle.filler.specs.Trials.{lent_of, size_in, Priced, price_in, Triable, trial_of};

use board::{BOARD, FIXED, RATE};
use query::price::{join_price, reads};
use query::{Bytes, Charge};
use relations::{Parts, SETS};
use rules::combine;

// What the trials are worked out from: the board, the sizes, the places of the subqueries' first cells, and the work area with the cells.
#[derive(Clone, Copy)]
pub struct Tables<'a> {
    pub board: &'a [u64; BOARD],
    pub sizes: &'a [u32; SETS],
    pub places: &'a [u32; SETS],
    pub work: &'a [u64],
}

// The size of a set, by the list of sizes alone.
pub fn size_of(sizes: &[u32; SETS], set: usize) -> Bytes
    requires { set < most_sets }
    ensures { result.0 ≡ get_or sizes.now set 0 }
{
    Bytes(u64::from(sizes[set]))
}

impl Tables<'_> {
    // The size of a set.
    pub fn size_of(&self, set: usize) -> Bytes
        requires { set < most_sets }
        ensures { result.0 ≡ size_in (lent_of self.now) set }
    {
        size_of(self.sizes, set)
    }

    // The price of joining two parts at site k, by the row with what is spared of them.
    fn price_at(&self, parts: Parts, spared: usize, k: usize) -> Charge
        requires { Priced self.now.board.now self.now.sizes.now parts.first parts.second spared k }
        ensures { (result.0 ≡ price_in self.now.board.now self.now.sizes.now parts.first parts.second spared k) × (result.0 ≤ none_mark + 3000000000000) }
    {
        let one = self.size_of(parts.first);
        let other = self.size_of(parts.second);
        let bytes = reads(one, other, Bytes(self.board[8 * spared + k]));
        let fixed = Charge(self.board[8 * FIXED + k]);
        join_price(
            fixed,
            self.board[8 * RATE + k],
            bytes,
            self.size_of(parts.first + parts.second),
        )
    }

    // The trial of joining two parts at site k.
    pub fn trial(&self, parts: Parts, spared: usize, k: usize) -> u64
        requires { Triable (lent_of self.now) parts.first parts.second spared k }
        ensures { (result ≡ trial_of ◌+◌ (lent_of self.now) parts.first parts.second spared k) × (result < 2 ^ 62) }
    {
        let price = self.price_at(parts, spared, k);
        let a = self.place(parts.first, k);
        let b = self.place(parts.second, k);
        let both = combine(Charge(self.work[a]), Charge(self.work[b]));
        both.0 + price.0
    }
}
