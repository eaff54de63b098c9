// What every set of relations holds, and which of the sets are subqueries.
// In reading order: table (what every set holds), subquery (how many sets are subqueries).
#![tactic(auto)]

mod subquery;
mod table;

pub use subquery::count_subqueries;
pub use table::{is_connected, join_table, joins_in};
