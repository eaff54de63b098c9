// The sections that a query's file has in either form, each read by itself, with the fields and items that they are made of.
// In reading order: fields, items, sections (Sites, Relations, Delivery), join_section, line_section.
#![tactic(auto)]

mod fields;
mod items;
mod join_section;
mod line_section;
mod sections;

pub use fields::Part;
pub use items::{MOST_FIXED, MOST_RATE};
pub use join_section::{read_joins, read_pairs};
pub use line_section::read_lines;
pub use sections::{read_delivery, read_relations, read_sites};
