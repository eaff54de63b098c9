// By which route a result goes: from which site, over which others, and the sends as steps.
// In reading order: routing (the cheapest routes to a site), choosing (the site that a result comes from), sends (what is written).
#![tactic(auto)]

mod choosing;
mod routing;
mod sends;

pub use choosing::site_for;
pub use sends::Writer;
