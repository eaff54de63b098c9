// Growth of a set of relations along joins: the part beyond a join, one relation at a time. A join is the set of its two ends here; the list of them is lent.
ghost use Rattle.std.specs.Prelude.{◌+◌, ◌≡◌};
ghost use Rattle.std.specs.Option.{unwrap_or};
ghost use Rattle.relations.specs.declared.Joins.{Joins};
ghost use Rattle.relations.specs.Growth.{grow};
ghost use Rattle.relations.specs.Code.{leads_out, FirstLeading, Growable};

use crate::member::within;

// A join with these ends leads out of the taken relations within a set: it lies in the set, and just one of its ends is taken.
fn leads_out(ends: usize, set: usize, taken: usize) -> bool
    ensures { result ≡ leads_out ends set taken }
{
    within(set, ends) & (taken & ends != 0) & !within(taken, ends)
}

// The lowest join but the skipped one that leads out, where one does.
fn first_leading(ends: &[usize], set: usize, skip: Option<usize>, taken: usize) -> Option<usize>
    ensures { FirstLeading ends.now set skip taken result }
{
    for (e, around) in ends.iter().enumerate() {
        if Some(e) != skip && leads_out(*around, set, taken) {
            return Some(e);
        }
    }
    None
}

// What the taken relations grow to within a set, skipping a join or none. Recursive, by rule 13.2.
pub(crate) fn grow(ends: &[usize], set: usize, skip: Option<usize>, taken: usize) -> usize
    requires { (J : Joins) × Growable J ends.now set taken }
    ensures { (J : Joins) → Growable J ends.now set taken → result ≡ grow J set (unwrap_or skip J.count) (J.count + 1) taken }
{
    match first_leading(ends, set, skip, taken) {
        Some(e) => grow(ends, set, skip, taken | ends[e]),
        None => taken,
    }
}
