// The records of all tables, one of which is lent to be changed at each step.
ghost use Rattle.std.specs.Prelude.{◌≡◌, ℕ, ◌+◌, ◌^◌, ◌<◌, ◌≤◌, length, ◌≢◌, slice_index_or};
ghost use Rattle.std.specs.Fn.{FnOnceReturnsAtMut};
ghost use Rattle.plan.specs.Content.{duration_of, no_table};
ghost use Rattle.plan.specs.Limits.{max_tables};
ghost use Rattle.plan.specs.Plans.{content};
ghost use Rattle.board.specs.Models.{at_rest, max_ticks};
ghost use Rattle.board.specs.Records.{record_of, waiting_for, stopped_at};
ghost use Rattle.board.specs.Ticks.{turned};

use crate::records::{TableRecord, TableState};
use plan::{MAX_TABLES, Plan, Table};

#[derive(Drop)]
pub(crate) struct Tables {
    // An array: there is one for each table that any plan may have, and none comes or goes.
    pub(crate) records: [TableRecord; MAX_TABLES],
    ghost full: { length records ≡ max_tables },
}

impl TableRecord {
    // Waits so many ticks for a round, the next of which may begin at the earliest tick given.
    pub(crate) fn start(&mut self, delay: u32, earliest: u32)
        ensures { self.new ≡ waiting_for delay earliest }
    {
        self.state = TableState::Waiting { ticks: delay };
        self.earliest = earliest;
    }

    pub(crate) fn stop(&mut self)
        ensures { self.new ≡ stopped_at self.old.earliest }
    {
        self.state = TableState::Stopped;
    }

    // One tick of the table.
    fn turn(&mut self, tick: u32, duration: u16)
        requires { tick ≤ max_ticks }
        ensures { self.new ≡ turned tick duration self.old }
    {
        let duration = u32::from(duration);
        match self.state {
            TableState::Stopped => {}
            TableState::Waiting { ticks } if ticks > 1 => {
                self.state = TableState::Waiting { ticks: ticks - 1 };
            }
            TableState::Running { position } if position < duration.saturating_sub(1) => {
                self.state = TableState::Running {
                    position: position + 1,
                };
            }
            _ => {
                self.state = TableState::Running { position: 0 };
                self.earliest = tick + duration;
            }
        }
    }
}

impl Tables {
    pub(crate) fn new() -> Tables
        ensures { (i : ℕ) → record_of result.records i ≡ at_rest }
    {
        Tables {
            records: [TableRecord::REST; MAX_TABLES],
        }
    }

    // The record of a table; past the last one that of a table that was never started.
    pub(crate) fn record_of(&self, table: usize) -> TableRecord
        ensures { result ≡ record_of self.now.records table }
    {
        self.records
            .get(table)
            .copied()
            .unwrap_or(TableRecord::REST)
    }

    // Changes the record of one table, which is lent to the change for that.
    pub(crate) fn change<F: FnOnce(&mut TableRecord)>(&mut self, table: usize, change: F)
        requires within { table < max_tables }
        requires callable { F.IsAlwaysCallable change }
        ensures here { FnOnceReturnsAtMut F.FnOnce change (record_of self.old.records table) tt (record_of self.new.records table) }
        ensures others { (i : ℕ) → i ≢ table → record_of self.new.records i ≡ record_of self.old.records i }
    {
        change(&mut self.records[table]);
    }

    // One tick of every table.
    pub(crate) fn turn_all(&mut self, plan: &Plan, tick: u32)
        requires { tick ≤ max_ticks }
        ensures { (i : ℕ) → record_of self.new.records i ≡ turned tick (duration_of (content plan.now) i) (record_of self.old.records i) }
    {
        // By their numbers: nothing is known of what is written behind an adapter of `iter_mut`.
        for table in 0..MAX_TABLES {
            let duration = duration_of(plan.tables(), table);
            self.change(table, |record| record.turn(tick, duration));
        }
    }
}

// A table's duration; 0 past the last table.
pub(crate) fn duration_of(tables: &[Table], table: usize) -> u16
    ensures { result ≡ (slice_index_or tables.now table no_table).duration }
{
    tables.get(table).map_or(0, |t| t.duration)
}
