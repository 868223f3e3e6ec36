// A plan that is being set down, command by command.
ghost use Rattle.std.specs.Prelude.{◌≡◌, IfOk};
ghost use Rattle.plan.specs.Drafts.{drafted};
ghost use Rattle.plan.specs.Entries.{blank, duration_here, points_here, position_here, tasks_here, position_after};

use crate::records::{Point, Table, Task};
use std::alloc::{AllocError, Global};

#[derive(Drop)]
pub(crate) struct Draft {
    pub(crate) tables: Vec<Table>,
    pub(crate) points: Vec<Point>,
    pub(crate) tasks: Vec<Task>,
}

impl Draft {
    pub(crate) fn new(heap: Global) -> Draft
        ensures { drafted result ≡ blank }
    {
        Draft {
            tables: Vec::new(heap),
            points: Vec::new(heap),
            tasks: Vec::new(heap),
        }
    }

    // Another draft that holds the same. Not `Clone`, which takes the heap of the original: this one is handed its heap, as the copy of a plan is.
    pub(crate) fn copy(&self, heap: Global) -> Result<Draft, AllocError>
        ensures { IfOk result (λ d. drafted d ≡ drafted self.now) }
    {
        let tables = Vec::from_slice(heap, self.tables.as_slice())?;
        let points = Vec::from_slice(heap, self.points.as_slice())?;
        let tasks = Vec::from_slice(heap, self.tasks.as_slice())?;
        Ok(Draft {
            tables,
            points,
            tasks,
        })
    }

    // How many points the last table has.
    pub(crate) fn points_here(&self) -> usize
        ensures { result ≡ points_here (drafted self.now) }
    {
        let table = self.tables.len().saturating_sub(1);
        self.points.iter().filter(|p| p.table == table).count()
    }

    // How many tasks the last point has. A chain of its own: a generic count would take the field as a closure.
    pub(crate) fn tasks_here(&self) -> usize
        ensures { result ≡ tasks_here (drafted self.now) }
    {
        let point = self.points.len().saturating_sub(1);
        self.tasks.iter().filter(|t| t.point == point).count()
    }

    // The duration of the last table, 0 before the first.
    pub(crate) fn duration_here(&self) -> u16
        ensures { result ≡ duration_here (drafted self.now) }
    {
        self.tables.last().map_or(0, |t| t.duration)
    }

    // The position of the last point, 0 before the first.
    pub(crate) fn position_here(&self) -> u16
        ensures { result ≡ position_here (drafted self.now) }
    {
        self.points.last().map_or(0, |p| p.position)
    }

    // The position so many ticks after the last point, if it lies within the table.
    pub(crate) fn position_after(&self, ticks: u16) -> Option<u16>
        ensures { result ≡ position_after (drafted self.now) ticks }
    {
        let duration = self.duration_here();
        self.position_here()
            .checked_add(ticks)
            .filter(|position| *position < duration)
    }
}
