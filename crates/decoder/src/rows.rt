// The sections Rows and Divisors, from which the sizes are worked out; and the sizes by the form of the file.
ghost use Rattle.std.specs.Prelude.{◌+◌, ◌≤◌, ◌≡◌, IfOk, replicate};
ghost use Rattle.relations.specs.Code.{most_sets};
ghost use Rattle.relations.specs.Trees.{subqueries};
ghost use Rattle.subqueries.specs.Table.{Tabled};
ghost use Rattle.sizing.specs.Code.{Counts};
ghost use Rattle.sections.specs.Code.{read_of, read_into};
ghost use Rattle.decoder.specs.Sizes.{counts_section, rows_sections, sizes_by};

use crate::Form;
use crate::sizes::read_sizes;
use query::Refusal;
use relations::{Joins, SETS};
use sections::Part;
use sizing::{MOST_ROWS, work_out};

// Rows or Divisors: the count that is due and that many numbers. A place without one holds 1.
#[tactic(auto, using(sections::proofs::Loops::loops, crate::proofs::RowRanges::counts_in), unfolding(sections::specs::Fields::section, crate::specs::Sizes::counts_section))]
fn read_counts(part: &mut Part, due: usize) -> Result<[u32; 9], Refusal>
    requires { due ≤ 9 }
    ensures value { read_of result part.new ≡ counts_section due part.old }
    ensures counts { IfOk result Counts }
{
    let count = part.count(due, due)?;
    let mut counts = [1u32; 9];
    for i in 0..count {
        counts[i] = part.from_one_to(MOST_ROWS)?;
    }
    Ok(counts)
}

// Rows and Divisors of a tree, and the sizes worked out from them by its table, into a list of zeros.
#[tactic(auto, unfolding(crate::specs::Sizes::rows_sections))]
fn read_rows(
    part: &mut Part,
    joins: Joins,
    table: &[u32; SETS],
    sizes: &mut [u32; SETS],
) -> Result<(), Refusal>
    requires tabled { Tabled joins table.now }
    requires sizes_are_zero { sizes.old ≡ replicate most_sets 0 }
    ensures { read_into result sizes.new part.new ≡ rows_sections joins (joins.count + 1) part.old }
{
    let rows = read_counts(part, joins.count + 1)?;
    let divisors = read_counts(part, joins.count)?;
    work_out(joins, table, &rows, &divisors, sizes);
    Ok(())
}

// The sizes of the subqueries of a tree, by the form of the file, into a list of zeros. Where the file has them, they are due in number.
pub(crate) fn read_by_form(
    form: Form,
    part: &mut Part,
    joins: Joins,
    table: &[u32; SETS],
    due: usize,
    sizes: &mut [u32; SETS],
) -> Result<(), Refusal>
    requires tabled { Tabled joins table.now }
    requires due_is { due ≡ subqueries joins (joins.count + 1) }
    requires sizes_are_zero { sizes.old ≡ replicate most_sets 0 }
    ensures { read_into result sizes.new part.new ≡ sizes_by form joins (joins.count + 1) part.old }
{
    match form {
        Form::Sizes => read_sizes(part, joins, table, due, sizes),
        Form::Rows => read_rows(part, joins, table, sizes),
    }
}
