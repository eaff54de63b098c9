// The whole query file: its sections in reading order, the tree test after the last join, and nothing after Delivery.
ghost use Rattle.std.specs.Prelude.{◌≡◌, IfOk};
ghost use Rattle.relations.specs.Trees.{subqueries};
ghost use Rattle.query.specs.Query.{Valid};
ghost use Rattle.decoder.specs.Decode.{decode};
ghost use Rattle.decoder.specs.Code.{query_of};

use crate::Form;
use crate::rows::read_by_form;
use query::{Query, Refusal};
use relations::{SETS, reaches};
use sections::{Part, read_delivery, read_joins, read_lines, read_relations, read_sites};
use subqueries::{count_subqueries, join_table};

// A decoded file: the query and its number of subqueries.
#[derive(Clone, Copy)]
pub struct Decoded {
    pub query: Query,
    pub subqueries: usize,
}

// The query that a file of a form holds. Which sets its subqueries are is worked out once, where the joins make a tree.
#[tactic(auto, unfolding(crate::specs::Decode::decode))]
pub fn decode(form: Form, file: &[u8]) -> Result<Decoded, Refusal>
    ensures value { query_of result ≡ decode form file.now }
    ensures valid { IfOk result (λ d. Valid d.query) }
    ensures count { IfOk result (λ d. d.subqueries ≡ subqueries d.query.joins d.query.relations.count) }
{
    let mut part = Part::new(file);
    let sites = read_sites(&mut part)?;
    let relations = read_relations(&mut part, sites.count)?;
    let joins = read_joins(&mut part, relations.count)?;
    if !reaches(joins) {
        return Err(Refusal::NotReached);
    }
    let table = join_table(joins);
    let due = count_subqueries(joins, &table);
    // Lent, not given back: 2 KB more by value are too much for the stack of the C call.
    let mut sizes = [0u32; SETS];
    read_by_form(form, &mut part, joins, &table, due, &mut sizes)?;
    let lines = read_lines(&mut part, sites.count)?;
    let target = read_delivery(&mut part, sites.count)?;
    if !part.is_empty() {
        return Err(Refusal::BytesFollow);
    }
    Ok(Decoded {
        query: Query {
            sites,
            relations,
            joins,
            sizes,
            lines,
            target,
        },
        subqueries: due,
    })
}
