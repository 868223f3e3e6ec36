// Adding a command to a draft, and making the plan of a finished one.
ghost use Rattle.std.specs.Prelude.{◌≡◌, true};
ghost use Rattle.plan.specs.Drafts.{drafted, Added, Changed};
ghost use Rattle.plan.specs.Entries.{with_point};
ghost use Rattle.plan.specs.Plans.{content};
ghost use Rattle.plan.specs.Rules.{lawful};

use crate::commands::{Command, Placed};
use crate::drafts::Draft;
use crate::faults::Fault;
use crate::model::Plan;
use crate::records::{Point, Table, Task};

impl Draft {
    fn add_point(&mut self, position: u16) -> Result<(), Fault>
        ensures { Changed (with_point (drafted self.old) position) result self.new }
    {
        let table = self.tables.len().saturating_sub(1);
        self.points.push(Point { table, position })?;
        Ok(())
    }

    // Adds what the command sets down, or tells the first row that it breaks, at the command's place.
    pub(crate) fn add(&mut self, placed: &Placed) -> Result<(), Fault>
        ensures { Added (drafted self.old) placed.now result self.new }
    {
        if let Some(row) = self.broken(&placed.command) {
            return Err(Fault::At {
                row,
                byte: placed.place,
            });
        }
        match placed.command {
            Command::Table { duration } => self.tables.push(Table { duration })?,
            Command::Point { position } => self.add_point(position)?,
            Command::Delay { ticks } => {
                let position = self.position_after(ticks).unwrap();
                self.add_point(position)?
            }
            Command::Task {
                name,
                execution,
                deadline,
                priority,
            } => self.tasks.push(Task {
                point: self.points.len().saturating_sub(1),
                name,
                execution,
                deadline,
                priority,
            })?,
            Command::End => {}
        }
        Ok(())
    }

    pub(crate) fn finish(self) -> Plan
        requires { lawful (drafted self) ≡ true }
        ensures { content result ≡ drafted self }
    {
        Plan { draft: self }
    }
}
