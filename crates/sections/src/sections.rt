// The sections Sites, Relations and Delivery, each read from the part of the file that starts where the last one ended.
// Loops over items differ in what an item is and in where it goes: one loop over a closure for both would be no shorter.
ghost use Rattle.std.specs.Prelude.{◌≤◌, ◌≡◌, IfOk, OnErr};
ghost use Rattle.sections.specs.Sections.{sites_section, relations_section, delivery_section};
ghost use Rattle.sections.specs.Code.{read_of};

use crate::fields::Part;
use query::{Refusal, Relations, Sites, no_relations, no_sites};

// Sites: may-join flag, join fixed amount, join rate.
#[tactic(auto, using(crate::proofs::Loops::loops), unfolding(crate::specs::Fields::section, crate::specs::Sections::sites_section))]
pub fn read_sites(part: &mut Part) -> Result<Sites, Refusal>
    ensures value { read_of result part.new ≡ sites_section part.old }
    ensures counts { IfOk result (λ a. (1 ≤ a.count) × (a.count ≤ 8)) }
    ensures unchanged { OnErr result (part.new ≡ part.old) }
{
    let mut left = part.fork();
    let count = left.count(1, 8)?;
    let mut sites = no_sites(count);
    for i in 0..count {
        let t = left.terms()?;
        sites.may[i] = t.flag;
        sites.fixed[i] = t.fixed;
        sites.rate[i] = t.rate;
    }
    *part = left;
    Ok(sites)
}

// Relations: home site, index flag.
#[tactic(auto, using(crate::proofs::Loops::loops), unfolding(crate::specs::Fields::section, crate::specs::Sections::relations_section))]
pub fn read_relations(part: &mut Part, s: usize) -> Result<Relations, Refusal>
    requires { 1 ≤ s }
    ensures value { read_of result part.new ≡ relations_section s part.old }
    ensures counts { IfOk result (λ a. (1 ≤ a.count) × (a.count ≤ 9)) }
    ensures unchanged { OnErr result (part.new ≡ part.old) }
{
    let mut left = part.fork();
    let count = left.count(1, 9)?;
    let mut relations = no_relations(count);
    for i in 0..count {
        let t = left.two(s, 2)?;
        relations.home[i] = t.one;
        relations.index[i] = t.other;
    }
    *part = left;
    Ok(relations)
}

// Delivery: the query site.
#[tactic(auto, unfolding(crate::specs::Sections::delivery_section))]
pub fn read_delivery(part: &mut Part, s: usize) -> Result<usize, Refusal>
    requires { 1 ≤ s }
    ensures value { read_of result part.new ≡ delivery_section s part.old }
    ensures unchanged { OnErr result (part.new ≡ part.old) }
{
    let mut left = part.fork();
    left.count(1, 1)?;
    let target = left.byte_below(s)?;
    *part = left;
    Ok(usize::from(target))
}
