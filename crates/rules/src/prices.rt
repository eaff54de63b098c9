// What a send and a join make of the held results, with their prices.
ghost use Rattle.std.specs.Prelude.{◌+◌, ◌^◌, ◌≤◌, ◌<◌, ◌≡◌};
ghost use Rattle.query.specs.Query.{Valid, relations_of, size};
ghost use Rattle.query.specs.Prices.{join_price, dearest_join};
ghost use Rattle.rules.specs.Machine.{bare_of, qualifies, sent_to, join_of};

use crate::combining::combine;
use crate::{Held, Origin};
use query::{Bytes, Charge, Query, price};
use relations::single;

// The size of a set.
#[tactic(auto, unfolding(query::specs::Query::size))]
fn size(q: &Query, set: usize) -> Bytes
    requires { Valid q.now × (set < 2 ^ relations_of q.now) }
    ensures { (result.0 ≡ size q.now set) × (result.0 ≤ 1000000000) }
{
    Bytes(u64::from(q.sizes[set]))
}

// The price of joining a and b, at the site of both.
#[tactic(auto, using(query::proofs::Prices::reads_spared), unfolding(query::specs::Prices::join_price, query::specs::Query::join_fixed, query::specs::Query::join_rate))]
fn join_price(q: &Query, a: Held, b: Held) -> Charge
    requires { Valid q.now × (b.site < 8) × (a.set + b.set < 2 ^ relations_of q.now) }
    ensures { (result.0 ≡ join_price q.now b.site (qualifies q.now a) a.set (qualifies q.now b) b.set) × (result.0 ≤ dearest_join) }
{
    let x = size(q, a.set);
    let y = size(q, b.set);
    let one = price::spareable(a.qualifies(q), x);
    let other = price::spareable(b.qualifies(q), y);
    let read = price::reads(x, y, price::spared(one, other));
    let result = size(q, a.set + b.set);
    let fixed = Charge(u64::from(q.sites.fixed[b.site]));
    price::join_price(fixed, u64::from(q.sites.rate[b.site]), read, result)
}

impl Held {
    // Relation r at its home, as it is loaded.
    #[tactic(auto, unfolding(query::specs::Query::home))]
    pub(crate) fn bare(q: &Query, r: usize) -> Held
        requires { Valid q.now × (r < relations_of q.now) }
        ensures { result ≡ bare_of q.now r }
    {
        Held {
            set: single(r),
            site: usize::from(q.relations.home[r]),
            origin: Origin::Bare,
            figure: Charge(0),
        }
    }

    // Its index can be followed.
    #[tactic(auto, using(query::proofs::Indexed::indexed_in_lem), unfolding(crate::specs::Machine::qualifies))]
    fn qualifies(self, q: &Query) -> bool
        requires { Valid q.now × (self.set < 2 ^ relations_of q.now) }
        ensures { result ≡ qualifies q.now self }
    {
        self.origin == Origin::Bare
            && price::is_indexed(&q.relations.home, &q.relations.index, self.set, self.site)
    }

    // What is sent, as it arrives at t.
    #[tactic(auto, unfolding(query::specs::Prices::line_price, query::specs::Query::line_fixed, query::specs::Query::line_rate))]
    pub(crate) fn sent(self, q: &Query, t: usize) -> Held
        requires { Valid q.now × (t < 8) × (self.site < 8) × (self.set < 2 ^ relations_of q.now) × (self.figure.0 < 2 ^ 62) }
        ensures { result ≡ sent_to q.now t self }
    {
        let line = 8 * self.site + t;
        let fixed = Charge(u64::from(q.lines.fixed[line]));
        let price = price::line_price(fixed, u64::from(q.lines.rate[line]), size(q, self.set));
        Held {
            site: t,
            origin: Origin::Sent,
            figure: Charge(self.figure.0 + price.0),
            ..self
        }
    }

    // What joining a and b makes, at the site of both.
    pub(crate) fn joined(q: &Query, a: Held, b: Held) -> Held
        requires { Valid q.now × (b.site < 8) × (a.set + b.set < 2 ^ relations_of q.now) × (a.figure.0 + b.figure.0 < 2 ^ 62) }
        ensures { result ≡ join_of ◌+◌ q.now a b }
    {
        let price = join_price(q, a, b);
        let both = combine(a.figure, b.figure);
        Held {
            set: a.set + b.set,
            site: b.site,
            origin: Origin::Joined,
            figure: Charge(both.0 + price.0),
        }
    }
}
