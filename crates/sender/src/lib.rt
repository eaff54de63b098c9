// What is delivered at each site over the lines, from what has been spent where a result can start from.
// In reading order: lines (a result to be sent: what a line charges for it, and a site that sends), routed (over routes), detours (whether one can pay),
// direct (over single lines where none can).
#![tactic(auto)]

mod detours;
mod direct;
mod lines;
mod routed;

pub use detours::is_direct;
pub use lines::Sending;
