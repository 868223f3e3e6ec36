// The rows of faults that speak of what a plan holds so far: one test for each, in the order of `broken`.
ghost use Rattle.std.specs.Prelude.{◌≡◌};
ghost use Rattle.plan.specs.Drafts.{drafted};
ghost use Rattle.plan.specs.Entries.{no_point_yet, empty_table, empty_point, too_soon, unfinished, too_many, out_of_range, not_rising, over_hyperperiod, first_row, plan_rows};
ghost use Rattle.plan.specs.Readers.{said};
ghost use Rattle.plan.specs.Rules.{good_name};

use crate::commands::Command;
use crate::drafts::Draft;
use crate::faults::Row;
use crate::limits::{
    FIRST_NAME_BYTE, LAST_NAME_BYTE, MAX_DURATION, MAX_POINTS, MAX_TABLES, MAX_TASKS,
    MAX_TASKS_OF_POINT, NAME_LENGTH,
};

fn is_name(name: &[u8; NAME_LENGTH]) -> bool
    ensures { result ≡ good_name name.now }
{
    name.iter()
        .all(|b| (FIRST_NAME_BYTE..=LAST_NAME_BYTE).contains(b))
}

impl Draft {
    fn no_point_yet(&self) -> bool
        ensures { result ≡ no_point_yet (drafted self.now) }
    {
        self.tables.is_empty() || self.points_here() == 0
    }

    fn empty_table(&self) -> bool
        ensures { result ≡ empty_table (drafted self.now) }
    {
        !self.tables.is_empty() && self.points_here() == 0
    }

    fn empty_point(&self) -> bool
        ensures { result ≡ empty_point (drafted self.now) }
    {
        !self.points.is_empty() && self.tasks_here() == 0
    }

    fn too_soon(&self, command: &Command) -> bool
        ensures { result ≡ too_soon (drafted self.now) (said command.now) }
    {
        match command {
            Command::Point { .. } => self.tables.is_empty(),
            Command::Delay { .. } | Command::Task { .. } => self.no_point_yet(),
            Command::Table { .. } | Command::End => false,
        }
    }

    fn unfinished(&self, command: &Command) -> bool
        ensures { result ≡ unfinished (drafted self.now) (said command.now) }
    {
        match command {
            Command::Table { .. } => self.empty_table() || self.empty_point(),
            Command::Point { .. } | Command::Delay { .. } => self.empty_point(),
            Command::Task { .. } => false,
            Command::End => self.tables.is_empty() || self.empty_table() || self.empty_point(),
        }
    }

    fn too_many(&self, command: &Command) -> bool
        ensures { result ≡ too_many (drafted self.now) (said command.now) }
    {
        match command {
            Command::Table { .. } => self.tables.len() >= MAX_TABLES,
            Command::Point { .. } | Command::Delay { .. } => self.points_here() >= MAX_POINTS,
            Command::Task { .. } => self.tasks.len() >= MAX_TASKS
                || self.tasks_here() >= MAX_TASKS_OF_POINT,
            Command::End => false,
        }
    }

    fn not_rising(&self, command: &Command) -> bool
        ensures { result ≡ not_rising (drafted self.now) (said command.now) }
    {
        match command {
            Command::Point { position } => self.points_here() > 0
                && *position <= self.position_here(),
            _ => false,
        }
    }

    fn over_hyperperiod(&self, command: &Command) -> bool
        ensures { result ≡ over_hyperperiod (drafted self.now) (said command.now) }
    {
        match command {
            Command::End => self.hyperperiod().is_none(),
            _ => false,
        }
    }

    fn out_of_range(&self, command: &Command) -> bool
        ensures { result ≡ out_of_range (drafted self.now) (said command.now) }
    {
        match command {
            Command::Table { duration } => !(1..=MAX_DURATION).contains(duration),
            Command::Point { position } => *position >= self.duration_here(),
            Command::Delay { ticks } => *ticks == 0 || self.position_after(*ticks).is_none(),
            Command::Task {
                name,
                execution,
                deadline,
                ..
            } => {
                !(is_name(name)
                    && *execution >= 1
                    && *execution <= *deadline
                    && *deadline <= self.duration_here())
            }
            Command::End => false,
        }
    }

    // The first row that the command breaks.
    pub(crate) fn broken(&self, command: &Command) -> Option<Row>
        ensures { result ≡ first_row (plan_rows (drafted self.now) (said command.now)) }
    {
        let rows = [
            (self.too_soon(command), Row::TooSoon),
            (self.unfinished(command), Row::Unfinished),
            (self.too_many(command), Row::TooMany),
            (self.out_of_range(command), Row::OutOfRange),
            (self.not_rising(command), Row::NotRising),
        ];
        // The hyperperiod is sought only where no other row is broken.
        rows.iter()
            .find(|(breaks, _)| *breaks)
            .map(|(_, row)| *row)
            .or_else(|| self.over_hyperperiod(command).then_some(Row::Hyperperiod))
    }
}
