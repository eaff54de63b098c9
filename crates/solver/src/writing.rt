// How a plan is read off the cells, from Delivered(all, query site) down: delivered and joined call each other, over fewer relations each time.
ghost use Rattle.std.specs.Prelude.{◌+◌, ◌^◌, ◌≤◌, ◌<◌, ◌≡◌, ◌++◌, length, drop};
ghost use Rattle.std.specs.Int.Count.{ones};
ghost use Rattle.relations.specs.Code.{most_sets};
ghost use Rattle.relations.specs.Sets.{all};
ghost use Rattle.query.specs.declared.Query.{Query};
ghost use Rattle.query.specs.Choice.{pick};
ghost use Rattle.query.specs.Query.{relations_of};
ghost use Rattle.query.specs.Cost.{some};
ghost use Rattle.rules.specs.Allowed.{longest_plan};
ghost use Rattle.tables.specs.Tables.{cheapest};
ghost use Rattle.tables.specs.Written.{written_delivered, written_joined, step_bytes, written};
ghost use Rattle.board.specs.Figures.{mark};
ghost use Rattle.board.specs.Board.{joins_at};
ghost use Rattle.filler.specs.Trials.{lent_of, size_in, cell_in};
ghost use Rattle.filler.specs.Cells.{place_in};
ghost use Rattle.router.specs.Routing.{carriage_in};
ghost use Rattle.filler.specs.Filling.{LaidOut, Filled};
ghost use Rattle.solver.specs.Writing.{joins_within, due_of, ToDeliver, ToJoin, site_by, join_by};
ghost use Rattle.router.specs.Wrote.{Wrote};

use board::{BOARD, Choice, NONE, better, ends_at, homes_at, joins_of, side_at, spared_row};
use filler::Tables;
use relations::{bit, single, split, whole, within};
use router::{Writer, site_for};
use rules::Step;
use sender::Sending;

// Join e as a bit where it lies in the set, else nothing.
fn bit_within(inside: bool, e: usize) -> usize
    requires { e < 8 }
    ensures { (result ≡ pick inside (2 ^ e) 0) × (result < 256) }
{
    if inside { single(e) } else { 0 }
}

// The joins in a set, as bits.
fn joins_within(board: &[u64; BOARD], set: usize) -> usize
    requires { joins_at board.now ≤ 8 }
    ensures { (result ≡ joins_within board.now set (joins_at board.now)) × (result < 256) }
{
    let mut found = 0;
    for e in 0..joins_of(board) {
        found += bit_within(within(set, ends_at(board, e)), e);
    }
    found
}

// What the whole query costs at the query site, as a figure. Its cells are nobody's part, so that they are not kept.
pub(crate) fn cheapest(tables: &Tables<'_>, target: usize) -> u64
    requires { (q : Query) × ((LaidOut q (lent_of tables.now) × Filled ◌+◌ q tables.now.places.now tables.now.work.now (all (relations_of q))) × (q.target ≡ target)) }
    ensures { (q : Query) → LaidOut q (lent_of tables.now) →
        Filled ◌+◌ q tables.now.places.now tables.now.work.now (all (relations_of q)) → q.target ≡ target → result ≡ mark (cheapest ◌+◌ q) }
{
    let every = whole(joins_of(tables.board) + 1);
    let row = tables.start_row(every, joins_within(tables.board, every));
    let sending = Sending {
        board: tables.board,
        size: tables.size_of(every),
    };
    let cells = sending.routed_row(row);
    cells[target]
}

// What is due: a figure, which a set costs at a site.
#[derive(Clone, Copy)]
pub struct Due {
    pub figure: u64,
    pub set: usize,
    pub site: usize,
}

// The site where a set is joined for its delivery, and the carriage from there.
fn join_site(tables: &Tables<'_>, due: Due) -> Choice
    requires { (q : Query) × (ToDeliver ◌+◌ q (lent_of tables.now) due.set due.site due.figure × (ones due.set ≡ 1 → ⊥)) }
    ensures { (result.at ≡ site_by ◌+◌ (lent_of tables.now) due.set due.site)
        × (result.figure ≡ carriage_in tables.now.board.now (size_in (lent_of tables.now) due.set) result.at due.site) }
{
    let row = tables.joined_row(due.set, joins_within(tables.board, due.set));
    let sending = Sending {
        board: tables.board,
        size: tables.size_of(due.set),
    };
    site_for(sending, &row, due.site, due.figure)
}

// The join that is taken last for a set at site k.
fn last_join(tables: &Tables<'_>, set: usize, k: usize) -> usize
    requires { (q : Query) × (ToJoin ◌+◌ q (lent_of tables.now) set k) }
    ensures { result ≡ join_by ◌+◌ (lent_of tables.now) set k }
{
    let joins = joins_within(tables.board, set);
    let mut best = Choice {
        figure: NONE,
        at: 0,
    };
    for e in 0..8 {
        if bit(joins, e) == 1 {
            let parts = split(set, side_at(tables.board, e));
            best = better(tables.trial(parts, spared_row(parts, e), k), e, best);
        }
    }
    best.at
}

// A set at a site, by its cell.
fn due_at(tables: &Tables<'_>, set: usize, k: usize) -> Due
    requires { ((set < most_sets) × (k < 8)) × (place_in tables.now.places.now set k < length tables.now.work.now) }
    ensures { result ≡ due_of set k (cell_in (lent_of tables.now) set k) }
{
    let at = tables.place(set, k);
    Due {
        set,
        site: k,
        figure: tables.work[at],
    }
}

// Writes the steps that deliver a set at a site: the load for one relation, else those of its join; then the sends that are due.
#[cycle(write_delivered_write_joined)]
fn write_delivered(tables: &Tables<'_>, plan: &mut Writer<'_>, due: Due)
    requires { (q : Query) × (ToDeliver ◌+◌ q (lent_of tables.now) due.set due.site due.figure × (plan.old.at + length (step_bytes (written_delivered ◌+◌ q due.set due.site)) ≤ length plan.old.bytes.now)) }
    ensures same { plan.new.bytes.ghost_name ≡ plan.old.bytes.ghost_name }
    ensures wrote { (q : Query) → ToDeliver ◌+◌ q (lent_of tables.now) due.set due.site due.figure →
        Wrote plan.old.bytes.now plan.old.at (step_bytes (written_delivered ◌+◌ q due.set due.site)) plan.new.at plan.new.bytes.now }
{
    let sending = Sending {
        board: tables.board,
        size: tables.size_of(due.set),
    };
    if due.set.count_ones() == 1 {
        let r = due.set.trailing_zeros() as usize;
        let home = homes_at(tables.board, r).trailing_zeros() as usize;
        plan.put(Step::Load(r));
        return plan.put_route(sending, home, due.site, due.figure);
    }
    let from = join_site(tables, due);
    write_joined(tables, plan, due.set, from.at);
    plan.put_route(sending, from.at, due.site, from.figure)
}

// Writes the steps that join a set at k: the part with the join's first relation, the other part and the join.
#[cycle(write_delivered_write_joined)]
fn write_joined(tables: &Tables<'_>, plan: &mut Writer<'_>, set: usize, k: usize)
    requires { (q : Query) × (ToJoin ◌+◌ q (lent_of tables.now) set k × (plan.old.at + length (step_bytes (written_joined ◌+◌ q set k)) ≤ length plan.old.bytes.now)) }
    ensures same { plan.new.bytes.ghost_name ≡ plan.old.bytes.ghost_name }
    ensures wrote { (q : Query) → ToJoin ◌+◌ q (lent_of tables.now) set k →
        Wrote plan.old.bytes.now plan.old.at (step_bytes (written_joined ◌+◌ q set k)) plan.new.at plan.new.bytes.now }
{
    let e = last_join(tables, set, k);
    let parts = split(set, side_at(tables.board, e));
    let one = due_at(tables, parts.first, k);
    write_delivered(tables, plan, one);
    let other = due_at(tables, parts.second, k);
    write_delivered(tables, plan, other);
    plan.put(Step::Join(e))
}

// Writes the plan: its count of steps, then the steps.
pub(crate) fn write_plan(tables: &Tables<'_>, out: &mut [u8], target: usize, figure: u64) -> usize
    requires { (q : Query) × ((LaidOut q (lent_of tables.now) × Filled ◌+◌ q tables.now.places.now tables.now.work.now (all (relations_of q))) × ((q.target ≡ target) × ((cheapest ◌+◌ q ≡ some figure) × (longest_plan ≤ length out.old)))) }
    ensures { (q : Query) → LaidOut q (lent_of tables.now) → Filled ◌+◌ q tables.now.places.now tables.now.work.now (all (relations_of q)) → q.target ≡ target →
        cheapest ◌+◌ q ≡ some figure →
        (result ≡ length (written ◌+◌ q)) × (out.new ≡ written ◌+◌ q ++ drop (length (written ◌+◌ q)) out.old) }
{
    let every = whole(joins_of(tables.board) + 1);
    let due = Due {
        set: every,
        site: target,
        figure,
    };
    let mut plan = Writer { bytes: out, at: 1 };
    write_delivered(tables, &mut plan, due);
    let end = plan.at;
    out[0] = ((end - 1) / 2) as u8;
    end
}
