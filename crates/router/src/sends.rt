// The sends of a route, written as steps of a plan.
ghost use Rattle.std.specs.Prelude.{◌+◌, ◌≤◌, ◌<◌, ◌≡◌, [], ◌∷◌, length};
ghost use Rattle.tables.specs.Written.{send_steps, step_bytes};
ghost use Rattle.board.specs.Board.{sites_at};
ghost use Rattle.router.specs.Wrote.{Wrote, arg_of, bytes_of};
ghost use Rattle.router.specs.Routing.{RoutesTo, stops_in, route_in, Carried};

use crate::routing::{ROUTES, add_sends, next_site};
use board::NONE;
use rules::Step;
use sender::Sending;

// Where a plan is written: its bytes, and the place behind what is written. Each method says that `bytes` is the same reference: only so does who lent
// the bytes learn what was written.
#[derive(Drop)]
pub struct Writer<'a> {
    pub bytes: &'a mut [u8],
    pub at: usize,
}

impl Writer<'_> {
    // Writes two bytes, a kind and an argument, whatever the kind.
    pub fn put_pair(&mut self, kind: u8, arg: usize)
        requires { (self.old.at + 2 ≤ length self.old.bytes.now) × (arg < 256) }
        ensures same { self.new.bytes.ghost_name ≡ self.old.bytes.ghost_name }
        ensures wrote { Wrote self.old.bytes.now self.old.at (kind ∷ (arg ∷ [])) self.new.at self.new.bytes.now }
    {
        self.bytes[self.at] = kind;
        self.bytes[self.at + 1] = arg as u8;
        self.at += 2;
    }

    // Writes a step.
    pub fn put(&mut self, step: Step)
        requires { (self.old.at + 2 ≤ length self.old.bytes.now) × (arg_of step < 256) }
        ensures same { self.new.bytes.ghost_name ≡ self.old.bytes.ghost_name }
        ensures wrote { Wrote self.old.bytes.now self.old.at (bytes_of step) self.new.at self.new.bytes.now }
    {
        match step {
            Step::Load(r) => self.put_pair(1, r),
            Step::Send(t) => self.put_pair(2, t),
            Step::Join(e) => self.put_pair(3, e),
        }
    }

    // Writes i sends from k on to t, by the table of routes to t.
    fn put_sends(
        &mut self,
        sending: Sending<'_>,
        table: &[u64; ROUTES],
        t: usize,
        k: usize,
        i: usize,
    )
        requires routes { RoutesTo sending.board.now sending.size.0 t i table.now × ((k < sites_at sending.board.now) × (i < sites_at sending.board.now)) }
        requires room { self.old.at + length (step_bytes (send_steps (stops_in sending.board.now sending.size.0 t i k))) ≤ length self.old.bytes.now }
        ensures same { self.new.bytes.ghost_name ≡ self.old.bytes.ghost_name }
        ensures wrote { Wrote self.old.bytes.now self.old.at (step_bytes (send_steps (stops_in sending.entry.board.now sending.entry.size.0 t i k))) self.new.at self.new.bytes.now }
    {
        if i == 0 {
            return;
        }
        let next = next_site(sending, table, i - 1, k);
        self.put(Step::Send(next.at));
        self.put_sends(sending, table, t, next.at, i - 1)
    }

    // Writes the sends of the cheapest route from k to t, whose carriage is known: with one send more each turn until that is what they cost. There is such a
    // number of sends, so a `for` over all of them would end in a case that never comes.
    fn put_detour(&mut self, sending: Sending<'_>, k: usize, t: usize, carried: u64)
        requires carried { ((k < sites_at sending.board.now) × (t < sites_at sending.board.now)) × Carried sending.board.now sending.size.0 k t carried }
        requires room { self.old.at + length (step_bytes (send_steps (route_in sending.board.now sending.size.0 k t))) ≤ length self.old.bytes.now }
        ensures same { self.new.bytes.ghost_name ≡ self.old.bytes.ghost_name }
        ensures wrote { Wrote self.old.bytes.now self.old.at (step_bytes (send_steps (route_in sending.entry.board.now sending.entry.size.0 k t))) self.new.at self.new.bytes.now }
    {
        let mut table = [NONE; ROUTES];
        table[t] = 0;
        let mut i = 0;
        while table[8 * i + k] != carried {
            add_sends(&mut table, sending, i);
            i += 1;
        }
        self.put_sends(sending, &table, t, k, i)
    }

    // The same: nothing where it stays, one send where the line costs no more.
    pub fn put_route(&mut self, sending: Sending<'_>, k: usize, t: usize, carried: u64)
        requires carried { ((k < sites_at sending.board.now) × (t < sites_at sending.board.now)) × Carried sending.board.now sending.size.0 k t carried }
        requires room { self.old.at + length (step_bytes (send_steps (route_in sending.board.now sending.size.0 k t))) ≤ length self.old.bytes.now }
        ensures same { self.new.bytes.ghost_name ≡ self.old.bytes.ghost_name }
        ensures wrote { Wrote self.old.bytes.now self.old.at (step_bytes (send_steps (route_in sending.entry.board.now sending.entry.size.0 k t))) self.new.at self.new.bytes.now }
    {
        if k == t {
            return;
        }
        let sent = sending.line_at(k, t);
        if sent.0 == carried {
            self.put(Step::Send(t));
            return;
        }
        self.put_detour(sending, k, t, carried)
    }
}
