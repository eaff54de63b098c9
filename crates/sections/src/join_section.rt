// The section Joins: its count, and the pairs behind it, which can be read by themselves.
ghost use Rattle.std.specs.Prelude.{◌+◌, ◌-◌, ◌*◌, ◌≤◌, ◌≡◌, ◌∷◌, length, IfOk, OnErr};
ghost use Rattle.relations.specs.Code.{Drawn};
ghost use Rattle.sections.specs.Sections.{joins_section};
ghost use Rattle.sections.specs.Code.{read_of};

use crate::fields::Part;
use query::{Refusal, no_joins};
use relations::Joins;

// Joins of n relations: their count, then the pairs.
#[tactic(auto, using(crate::proofs::Pairs::pairs_behind), unfolding(crate::specs::Fields::section, crate::specs::Sections::joins_section))]
pub fn read_joins(part: &mut Part, n: usize) -> Result<Joins, Refusal>
    requires { (1 ≤ n) × (n ≤ 9) }
    ensures value { read_of result part.new ≡ joins_section n part.old }
    ensures drawn { IfOk result (λ J. Drawn J × (J.count + 1 ≡ n)) }
    ensures unchanged { OnErr result (part.new ≡ part.old) }
{
    let mut left = part.fork();
    left.count(n - 1, n - 1)?;
    let joins = read_pairs(&mut left, n)?;
    *part = left;
    Ok(joins)
}

// The pairs of n - 1 joins, as they stand behind a count that is as due: first relation, second relation.
#[tactic(auto, using(crate::proofs::Loops::loops, crate::proofs::Pairs::due_count), unfolding(crate::specs::Fields::section, crate::specs::Sections::joins_section))]
pub fn read_pairs(part: &mut Part, n: usize) -> Result<Joins, Refusal>
    requires { (1 ≤ n) × (n ≤ 9) }
    ensures value { read_of result part.new ≡ joins_section n ((n - 1) ∷ part.old) }
    ensures small { length part.old ≤ length part.new + 2 * n }
    ensures drawn { IfOk result (λ J. Drawn J × (J.count + 1 ≡ n)) }
    ensures unchanged { OnErr result (part.new ≡ part.old) }
{
    let count = n - 1;
    let mut left = part.fork();
    let mut joins = no_joins(count);
    for i in 0..count {
        let t = left.two(n, n)?;
        joins.first[i] = t.one;
        joins.second[i] = t.other;
    }
    *part = left;
    Ok(joins)
}
