// Making a plan, and looking at what it holds.
ghost use Rattle.std.specs.Prelude.{◌≡◌, IfOk};
ghost use Rattle.plan.specs.Plans.{content, unread};

use crate::drafts::Draft;
use crate::model::Plan;
use crate::records::{Point, Table, Task};
use std::alloc::{AllocError, Global};

impl Plan {
    // The plan that has read no file.
    pub fn new(heap: Global) -> Result<Plan, AllocError>
        ensures { IfOk result (λ p. content p ≡ unread) }
    {
        let table = Table { duration: 1 };
        let point = Point {
            table: 0,
            position: 0,
        };
        let task = Task {
            point: 0,
            name: *b"----",
            execution: 1,
            deadline: 1,
            priority: 0,
        };
        let tables = Vec::from_slice(heap, &[table])?;
        let points = Vec::from_slice(heap, &[point])?;
        let tasks = Vec::from_slice(heap, &[task])?;
        let draft = Draft {
            tables,
            points,
            tasks,
        };
        Ok(Plan { draft })
    }

    // Another plan that holds the same. Not `Clone`, which takes the heap of the original: this one is handed its heap.
    pub fn copy(&self, heap: Global) -> Result<Plan, AllocError>
        ensures { IfOk result (λ p. content p ≡ content self.now) }
    {
        let draft = self.draft.copy(heap)?;
        Ok(Plan { draft })
    }

    // The tables in file order: a table's number is its index.
    pub fn tables(&self) -> &[Table]
        ensures { result.now ≡ (content self.now).tables }
    {
        self.draft.tables.as_slice()
    }

    // The expiry points of all tables in file order.
    pub fn points(&self) -> &[Point]
        ensures { result.now ≡ (content self.now).points }
    {
        self.draft.points.as_slice()
    }

    // The tasks of all points in file order: a task's number is its index.
    pub fn tasks(&self) -> &[Task]
        ensures { result.now ≡ (content self.now).tasks }
    {
        self.draft.tasks.as_slice()
    }
}
