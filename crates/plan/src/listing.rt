// The listing of a query file's answer, as rule 10.2 has it: in decimal, a line for the answer and one for each step.
ghost use Rattle.std.specs.Prelude.{◌≡◌, Some};
ghost use Rattle.plan.specs.Lines.{lines, lines_of};
ghost use Rattle.plan.specs.Text.{step_text, steps_text, text, said};

use planner::{CELLS, LONGEST_PLAN, Refusal, Solution};
use std::fmt;

// What is listed: the answer, and the output that a plan stands in.
#[derive(Clone, Copy)]
pub(crate) struct Listing {
    answer: Result<Solution, Refusal>,
    output: [u8; LONGEST_PLAN],
}

// A step of a plan, as it stands in the output.
#[derive(Clone, Copy)]
struct Step {
    kind: u8,
    arg: u8,
}

// `load 0`, `send 2` or `join 1`. The kinds are the output's bytes, told apart here alone: an enum would only say each twice.
impl fmt::Display for Step {
    ghost output = { λ s. Some (step_text s.kind s.arg) };

    fn fmt<W: fmt::Write>(&self, f: &mut fmt::Formatter<W>) -> fmt::Result {
        let arg = self.arg;
        match self.kind {
            1 => write!(f, "load {arg}"),
            2 => write!(f, "send {arg}"),
            _ => write!(f, "join {arg}"),
        }
    }
}

// So many steps of a plan: the output says with its first byte how many it has (rule 10.2), and where they end nothing else does.
#[derive(Clone, Copy)]
struct Steps<'a> {
    count: u8,
    bytes: &'a [u8],
}

// Each is a line.
impl fmt::Display for Steps<'_> {
    ghost output = { λ s. Some (steps_text s.count s.bytes.now) };

    fn fmt<W: fmt::Write>(&self, f: &mut fmt::Formatter<W>) -> fmt::Result {
        for step in self.bytes.chunks_exact(2).take(usize::from(self.count)) {
            let step = Step {
                kind: step[0],
                arg: step[1],
            };
            writeln!(f, "{step}")?;
        }
        Ok(())
    }
}

// `plan 4 cost 21 trials 3` and the steps, `no route trials 3` or `refused 4`.
impl fmt::Display for Listing {
    ghost output = { λ l. Some (text l) };

    fn fmt<W: fmt::Write>(&self, f: &mut fmt::Formatter<W>) -> fmt::Result {
        match self.answer {
            Err(refusal) => writeln!(f, "{refusal}"),
            Ok(Solution::NoRoute { trials }) => writeln!(f, "no route trials {trials}"),
            Ok(Solution::Found { cost, trials, .. }) => {
                let (count, cost) = (self.output[0], cost.0);
                let steps = Steps {
                    count,
                    bytes: &self.output[1..],
                };
                write!(f, "plan {count} cost {cost} trials {trials}\n{steps}")
            }
        }
    }
}

// The cheapest plan of a query file, no route, or the refusal.
pub(crate) fn list(file: &[u8]) -> Listing
    ensures says { text result ≡ said file.now }
    ensures counts { lines_of result ≡ lines file.now }
{
    let mut output = [0u8; LONGEST_PLAN];
    let loaded = planner::load(planner::empty(), file);
    let answer = match loaded.answer {
        Ok(_) => planner::solve(loaded.planner, &mut [0u64; CELLS], &mut output),
        Err(refusal) => Err(refusal),
    };
    Listing { answer, output }
}
