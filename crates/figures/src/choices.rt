// The choices of a point in each table other than a task's own, as lists of phases.
ghost use Rattle.std.specs.Prelude.{◌<◌, IfOk};
ghost use Rattle.plan.specs.Content.{table_count};
ghost use Rattle.plan.specs.Limits.{max_tables};
ghost use Rattle.plan.specs.Plans.{content};
ghost use Rattle.figures.specs.Choices.{Spread, Listed};

use plan::{MAX_TABLES, Plan, Point};
use std::alloc::{AllocError, Global};

// Each choice with each position of a point of the table put in.
fn with_table(
    heap: Global,
    choices: &[[u32; MAX_TABLES]],
    points: &[Point],
    table: usize,
) -> Result<Vec<[u32; MAX_TABLES]>, AllocError>
    requires { table < max_tables }
    ensures { IfOk result (λ v. Spread points.now table choices.now v.items) }
{
    let mut longer = Vec::new(heap);
    for choice in choices {
        for point in points {
            if point.table == table {
                let mut phases = *choice;
                phases[table] = u32::from(point.position);
                longer.push(phases)?;
            }
        }
    }
    Ok(longer)
}

// All choices, one table after another. Arrays, not lists: each choice is a plain value that the search copies without the heap.
pub(crate) fn choices_of(
    heap: Global,
    plan: &Plan,
    own: usize,
) -> Result<Vec<[u32; MAX_TABLES]>, AllocError>
    ensures { IfOk result (λ v. Listed (content plan.now).points own (table_count (content plan.now)) v.items) }
{
    let mut choices = Vec::from_slice(heap, &[[0; MAX_TABLES]])?;
    // A table goes by its number here, as in the promise: no element is read.
    for table in 0..plan.tables().len() {
        if table != own {
            choices = with_table(heap, &choices, plan.points(), table)?;
        }
    }
    Ok(choices)
}
