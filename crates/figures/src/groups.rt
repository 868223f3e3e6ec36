// The tasks of one table that count against a task's job.
ghost use Rattle.std.specs.Prelude.{◌≡◌, ◌+◌, ◌<◌, ◌≤◌, vec_items, IfOk};
ghost use Rattle.plan.specs.Content.{table_count, duration_of};
ghost use Rattle.plan.specs.Plans.{content};
ghost use Rattle.figures.specs.Loads.{Rivals, Fine, part_of, most_of_table};
ghost use Rattle.figures.specs.Ceilings.{InTable, peak_of};
ghost use Rattle.figures.specs.Grouped.{GroupFor, Grouped};

use crate::loads::Load;
use crate::spans::Span;
use crate::subject::Subject;
use plan::Point;
use std::alloc::{AllocError, Global};
use std::marker::Model;

#[derive(Drop)]
pub struct Group {
    duration: u32,
    loads: Vec<Load>,
}

impl Model for Group {
    ghost Value = { Rivals };

    ghost view = { λ g. record { duration = g.duration; loads = vec_items g.loads } };

    ghost invariant = { λ g. Fine (record { duration = g.duration; loads = vec_items g.loads }) };
}

impl Group {
    // The tasks of the table, without those that are less urgent than the task: they never stand against its job.
    pub(crate) fn new(
        heap: Global,
        subject: &Subject,
        table: usize,
        duration: u32,
    ) -> Result<Group, AllocError>
        requires table { table < table_count (content subject.now.plan.now) }
        requires lasting { duration ≡ duration_of (content subject.now.plan.now) table }
        ensures { IfOk result (λ g. GroupFor (content subject.now.plan.now) subject.now.task table g) }
    {
        let tasks = subject.plan.tasks();
        let points = subject.plan.points();
        let priority = tasks[subject.task].priority;
        let mut loads = Vec::new(heap);
        for other in tasks {
            let point = points[other.point];
            if point.table == table && other.priority <= priority {
                loads.push(Load {
                    lead: duration - 1 - u32::from(point.position),
                    cost: u32::from(other.execution),
                    above: other.priority < priority,
                })?;
            }
        }
        Ok(Group { duration, loads })
    }

    // What the tasks add, if the table begins the window in this phase.
    pub(crate) fn part(&self, phase: u32, span: Span) -> u32
        requires { phase < self.now.duration }
        ensures value { result ≡ part_of self.now phase (span.tick + span.ticks) (span.tick + 1) }
        ensures most { result ≤ most_of_table }
    {
        // Read once, not for each load: this is the innermost step of the search.
        let duration = self.duration;
        self.loads
            .iter()
            .map(|load| load.term(duration, phase, span))
            .sum()
    }

    // The most that they add, over all points of the table.
    pub(crate) fn peak(&self, points: &[Point], table: usize, span: Span) -> u32
        requires { InTable points.now table self.now.duration }
        ensures value { result ≡ peak_of points.now table self.now (span.tick + span.ticks) (span.tick + 1) }
        ensures most { result ≤ most_of_table }
    {
        // A loop, not a chain: that each part may be asked for was not found of the closure.
        let mut most = 0;
        for point in points {
            if point.table == table {
                most = most.max(self.part(u32::from(point.position), span));
            }
        }
        most
    }
}

// The groups of all tables.
pub(crate) fn groups_of(heap: Global, subject: &Subject) -> Result<Vec<Group>, AllocError>
    ensures { IfOk result (λ v. Grouped (content subject.now.plan.now) subject.now.task v.items) }
{
    let mut groups = Vec::new(heap);
    for (number, table) in subject.plan.tables().iter().enumerate() {
        let duration = u32::from(table.duration);
        groups.push(Group::new(heap, subject, number, duration)?)?;
    }
    Ok(groups)
}
