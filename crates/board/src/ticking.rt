// The steps of a tick: activating tasks, and finding a late job.
ghost use Rattle.std.specs.Prelude.{◌≡◌, ℕ, true, if◌then◌else◌, Some, None, slice_index_or};
ghost use Rattle.plan.specs.Content.{no_point};
ghost use Rattle.plan.specs.Plans.{content};
ghost use Rattle.board.specs.Records.{record_of};
ghost use Rattle.board.specs.Ticks.{runs_at, activates, new_job, past_due, late_task};

use crate::records::TableState;
use crate::tables::Tables;
use crate::waiting::WaitingJobs;
use plan::{Plan, Point};
use ready::job::Job;
use ready::queue::ReadyQueue;

impl TableState {
    // Whether the table runs at that position.
    fn is_at(self, at: u16) -> bool
        ensures { result ≡ runs_at at self }
    {
        self == TableState::Running {
            position: u32::from(at),
        }
    }
}

// A point by its index; past the last one position 0 of table 0.
fn point_at(points: &[Point], index: usize) -> Point
    ensures { result ≡ slice_index_or points.now index no_point }
{
    points.get(index).copied().unwrap_or(Point {
        table: 0,
        position: 0,
    })
}

// Whether a job of that activation is late when so many ticks are made.
fn is_overdue(activation: Option<u32>, deadline: u16, made: u32) -> bool
    ensures { result ≡ past_due made deadline activation }
{
    let deadline = u32::from(deadline);
    activation.is_some_and(|tick| deadline <= made && tick <= made - deadline)
}

impl<Q: ReadyQueue> WaitingJobs<Q> {
    // Puts a job of each task whose table runs at its point, in the order of their numbers.
    pub(crate) fn activate_due(&mut self, plan: &Plan, tables: &Tables, tick: u32)
        ensures { ((k : ℕ) → activates (content plan.now) (record_of tables.now.records) k ≡ true → Q.ReadyQueue.jobs self.old.queue k ≡ None) → (k : ℕ) → Q.ReadyQueue.jobs self.new.queue k ≡ (if activates (content plan.now) (record_of tables.now.records) k then Some (new_job (content plan.now) tick k) else Q.ReadyQueue.jobs self.old.queue k) }
    {
        for (k, task) in plan.tasks().iter().enumerate() {
            let point = point_at(plan.points(), task.point);
            if tables.record_of(point.table).state.is_at(point.position) {
                self.activate(Job {
                    task: k,
                    priority: task.priority,
                    activation: tick,
                    left: task.execution,
                });
            }
        }
    }

    // The lowest task with a job whose deadline has come when so many ticks are made.
    pub(crate) fn first_late(&self, plan: &Plan, made: u32) -> Option<usize>
        ensures { result ≡ late_task (content plan.now) made (Q.ReadyQueue.jobs self.now.queue) }
    {
        for (k, task) in plan.tasks().iter().enumerate() {
            if is_overdue(self.activation(k), task.deadline, made) {
                return Some(k);
            }
        }
        None
    }
}
