// One step of a plan: load, send and join, with refusals 8 to 11. A refused step leaves the state as it was.
ghost use Rattle.std.specs.Prelude.{◌+◌, ◌≡◌, ◌&&◌, ◌<◌, not, eqb, get_or, OnErr};
ghost use Rattle.query.specs.Query.{Valid, relations_of, may_join, is_open};
ghost use Rattle.rules.specs.Machine.{start, load, send, join, step, links};
ghost use Rattle.rules.specs.Allowed.{most_steps};
ghost use Rattle.rules.specs.Code.{machine_of, outcome_of, Room};

use crate::{Held, Stack, State, Step};
use query::{Query, Refusal};
use relations::bit;

// A result may be sent to t: it stands elsewhere, and the line is open.
#[tactic(auto, unfolding(query::specs::Query::is_open))]
fn may_send(q: &Query, top: Held, t: usize) -> bool
    requires { (top.site < 8) × (t < 8) }
    ensures { result ≡ (not (eqb top.site t) && is_open q.now top.site t) }
{
    top.site != t && q.lines.flag[8 * top.site + t] == 1
}

// Join e has one end in each of two sets.
#[tactic(auto, unfolding(crate::specs::Machine::links))]
fn links(q: &Query, e: usize, p: usize, r: usize) -> bool
    requires { e < 8 }
    ensures { result ≡ links q.now.joins e p r }
{
    let first = usize::from(q.joins.first[e]);
    let second = usize::from(q.joins.second[e]);
    bit(p, first) + bit(r, second) == 2 || bit(p, second) + bit(r, first) == 2
}

// a and b may be joined by e: they stand at one site that may join, with one end of e in each.
#[tactic(auto, unfolding(query::specs::Query::may_join))]
fn may_join(q: &Query, a: Held, b: Held, e: usize) -> bool
    requires { (b.site < 8) × (e < 8) }
    ensures { result ≡ ((eqb a.site b.site && may_join q.now b.site) && links q.now.joins e a.set b.set) }
{
    a.site == b.site && q.sites.may[b.site] == 1 && links(q, e, a.set, b.set)
}

// Each step asks for room. It is no invariant of the state alone: it tells of the query and of how many steps were taken.
impl State {
    // Nothing is loaded and nothing held.
    pub(crate) fn start() -> State
        ensures { machine_of result ≡ start }
    {
        State {
            loaded: 0,
            stack: Stack::new(),
        }
    }

    // 1, load r: puts r, at its home, on top. Each relation at most once.
    #[tactic(auto, unfolding(crate::specs::Machine::load))]
    fn load(&mut self, q: &Query, r: usize) -> Result<(), Refusal>
        requires { Valid q.now × Room (relations_of q.now) most_steps (machine_of self.old) }
        ensures outcome { outcome_of result self.new ≡ load q.now r (machine_of self.old) }
        ensures unchanged { OnErr result (self.new ≡ self.old) }
    {
        if q.relations.count <= r {
            return Err(Refusal::UnknownStep);
        }
        if bit(self.loaded, r) != 0 {
            return Err(Refusal::LoadedBefore);
        }
        let bare = Held::bare(q, r);
        self.loaded += bare.set;
        self.stack.push(bare);
        Ok(())
    }

    // 2, send to t: moves the top to t.
    #[tactic(auto, unfolding(crate::specs::Machine::send, crate::specs::Machine::send_top))]
    fn send(&mut self, q: &Query, t: usize) -> Result<(), Refusal>
        requires { Valid q.now × Room (relations_of q.now) most_steps (machine_of self.old) }
        ensures outcome { outcome_of result self.new ≡ send q.now t (machine_of self.old) }
        ensures unchanged { OnErr result (self.new ≡ self.old) }
    {
        if q.sites.count <= t {
            return Err(Refusal::UnknownStep);
        }
        let top = match self.stack.as_slice() {
            [.., top] if may_send(q, *top, t) => *top,
            _ => return Err(Refusal::SendNotAllowed),
        };
        self.stack.pop();
        self.stack.push(top.sent(q, t));
        Ok(())
    }

    // 3, join e: the top two become one.
    #[tactic(auto, unfolding(crate::specs::Machine::join, crate::specs::Machine::join_top))]
    fn join(&mut self, q: &Query, e: usize) -> Result<(), Refusal>
        requires { Valid q.now × Room (relations_of q.now) most_steps (machine_of self.old) }
        ensures outcome { outcome_of result self.new ≡ join ◌+◌ q.now e (machine_of self.old) }
        ensures unchanged { OnErr result (self.new ≡ self.old) }
    {
        if q.joins.count <= e {
            return Err(Refusal::UnknownStep);
        }
        let (a, b) = match self.stack.as_slice() {
            [.., a, b] if may_join(q, *a, *b, e) => (*a, *b),
            _ => return Err(Refusal::JoinNotAllowed),
        };
        self.stack.pop();
        self.stack.pop();
        self.stack.push(Held::joined(q, a, b));
        Ok(())
    }

    // A step by its kind and argument. Refusal 8: unknown kind, or argument not in the query.
    #[tactic(auto, unfolding(crate::specs::Machine::step))]
    pub(crate) fn step(&mut self, q: &Query, bytes: [u8; 2]) -> Result<(), Refusal>
        requires { Valid q.now × Room (relations_of q.now) most_steps (machine_of self.old) }
        ensures outcome { outcome_of result self.new ≡ step ◌+◌ q.now (get_or bytes 0 0) (get_or bytes 1 0) (machine_of self.old) }
        ensures unchanged { OnErr result (self.new ≡ self.old) }
    {
        match Step::try_from(bytes)? {
            Step::Load(r) => self.load(q, r),
            Step::Send(t) => self.send(q, t),
            Step::Join(e) => self.join(q, e),
        }
    }
}
