// The calls of a board that are no tick.
ghost use Rattle.std.specs.Prelude.{◌≡◌, false, is_some, is_ok, Ok, Err, IfOk, MatchResult, nat_le, if◌then◌else◌};
ghost use Rattle.plan.specs.Content.{table_count};
ghost use Rattle.plan.specs.Plans.{content};
ghost use Rattle.board.specs.Boards.{model, Rest, of_done, of_state};
ghost use Rattle.board.specs.Drives.{Asked};
ghost use Rattle.board.specs.Models.{Alike, fresh};
ghost use Rattle.board.specs.Records.{record_of};
ghost use Rattle.board.specs.declared.calls.CallRefusal.TheVariants.{LateBoard, NoTable};
ghost use Rattle.board.specs.declared.calls.Call.TheVariants.{Start, Stop, State};

use crate::boards::Board;
use crate::calls::CallRefusal;
use crate::records::{TableRecord, TableState};
use crate::tables::{Tables, duration_of};
use crate::waiting::WaitingJobs;
use plan::Plan;
use ready::queue::ReadyQueue;
use std::alloc::{AllocFailed, Global};

const MAX_DELAY: u32 = 65_535;

impl<Q: ReadyQueue> Board<Q> {
    // Opens a rehearsal: a new board on a copy of the plan. The queue comes back where there is no memory for the copy.
    pub fn rehearse(heap: Global, plan: &Plan, queue: Q) -> Result<Board<Q>, AllocFailed<Q>>
        ensures plan { MatchResult result (λ b. content b.plan ≡ content plan.now) (λ e. e.value ≡ queue) }
        ensures fresh { IfOk result (λ b. Alike (model Q.ReadyQueue.jobs b) fresh) }
    {
        let Ok(plan) = plan.copy(heap) else {
            return Err(AllocFailed { value: queue });
        };
        Ok(Board {
            plan,
            tables: Tables::new(),
            waiting: WaitingJobs::new(queue),
            ticks: 0,
            late: None,
        })
    }

    // Whether the board still takes calls that change it.
    pub(crate) fn not_late(&self) -> Result<(), CallRefusal>
        ensures { result ≡ (if is_some self.now.late then Err LateBoard else Ok tt) }
    {
        if self.late.is_some() {
            return Err(CallRefusal::LateBoard);
        }
        Ok(())
    }

    // The record of a table that the plan has.
    fn record(&self, table: usize) -> Result<TableRecord, CallRefusal>
        ensures { result ≡ (if nat_le (table_count (content self.now.plan)) table then Err NoTable else Ok (record_of self.now.tables.records table)) }
    {
        if table >= self.plan.tables().len() {
            return Err(CallRefusal::NoTable);
        }
        Ok(self.tables.record_of(table))
    }

    // Starts a table: its round begins with the delay-th tick from now.
    pub fn start(&mut self, table: usize, delay: u32) -> Result<(), CallRefusal>
        ensures answer { Asked (content self.old.plan) (model Q.ReadyQueue.jobs self.old) (Start table delay) (of_done result) (model Q.ReadyQueue.jobs self.new) }
        ensures refused { is_ok result ≡ false → self.new ≡ self.old }
        ensures rest { Rest self.old self.new }
    {
        self.not_late()?;
        let record = self.record(table)?;
        if record.state != TableState::Stopped {
            return Err(CallRefusal::NotStopped);
        }
        if !(1..=MAX_DELAY).contains(&delay) {
            return Err(CallRefusal::BadDelay);
        }
        let beginning = self.ticks.saturating_add(delay - 1);
        if beginning < record.earliest {
            return Err(CallRefusal::TooEarly);
        }
        let duration = u32::from(duration_of(self.plan.tables(), table));
        let earliest = beginning.saturating_add(duration);
        self.tables
            .change(table, |record| record.start(delay, earliest));
        Ok(())
    }

    // Stops a table. Its jobs remain.
    pub fn stop(&mut self, table: usize) -> Result<(), CallRefusal>
        ensures answer { Asked (content self.old.plan) (model Q.ReadyQueue.jobs self.old) (Stop table) (of_done result) (model Q.ReadyQueue.jobs self.new) }
        ensures refused { is_ok result ≡ false → self.new ≡ self.old }
        ensures rest { Rest self.old self.new }
    {
        self.not_late()?;
        if self.record(table)?.state == TableState::Stopped {
            return Err(CallRefusal::NotStarted);
        }
        self.tables.change(table, |record| record.stop());
        Ok(())
    }

    // Tells the state of a table, also on a late board.
    pub fn state(&self, table: usize) -> Result<TableState, CallRefusal>
        ensures { Asked (content self.now.plan) (model Q.ReadyQueue.jobs self.now) (State table) (of_state result) (model Q.ReadyQueue.jobs self.now) }
    {
        self.record(table).map(|record| record.state)
    }

    // How many ticks the board has made.
    pub fn ticks_made(&self) -> u32
        ensures { result ≡ self.now.ticks }
    {
        self.ticks
    }
}
