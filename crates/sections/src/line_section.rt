// The section Lines: by sender, then receiver, the sender itself left out.
ghost use Rattle.std.specs.Prelude.{◌≤◌, ◌<◌, ◌≡◌, OnErr};
ghost use Rattle.sections.specs.Sections.{sender, lines_section};
ghost use Rattle.sections.specs.Code.{read_of, read_into};

use crate::fields::Part;
use query::{Lines, Refusal, no_lines};

// The lines of sender a to each receiver of s sites but itself.
#[tactic(auto, using(crate::proofs::LineLaws::lines), unfolding(crate::specs::Sections::sender))]
fn read_sender(part: &mut Part, s: usize, a: usize, lines: &mut Lines) -> Result<(), Refusal>
    requires { (s ≤ 8) × (a < 8) }
    ensures { read_into result lines.new part.new ≡ sender s a lines.old part.old }
{
    for b in 0..s {
        if a != b {
            let t = part.terms()?;
            let i = 8 * a + b;
            lines.flag[i] = t.flag;
            lines.fixed[i] = t.fixed;
            lines.rate[i] = t.rate;
        }
    }
    Ok(())
}

// Lines of s sites, by sender.
#[tactic(auto, using(crate::proofs::Loops::loops, crate::proofs::LineLaws::pairs_fit), unfolding(crate::specs::Sections::lines_section))]
pub fn read_lines(part: &mut Part, s: usize) -> Result<Lines, Refusal>
    requires { (1 ≤ s) × (s ≤ 8) }
    ensures value { read_of result part.new ≡ lines_section s part.old }
    ensures unchanged { OnErr result (part.new ≡ part.old) }
{
    let due = s * (s - 1);
    let mut left = part.fork();
    left.count(due, due)?;
    let mut lines = no_lines();
    for a in 0..s {
        read_sender(&mut left, s, a, &mut lines)?;
    }
    *part = left;
    Ok(lines)
}
