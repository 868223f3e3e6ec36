// One tick of a board.
ghost use Rattle.std.specs.Prelude.{◌≡◌, false, is_ok};
ghost use Rattle.plan.specs.Plans.{content};
ghost use Rattle.board.specs.Boards.{model};
ghost use Rattle.board.specs.Ticks.{DidTick};

use crate::boards::Board;
use crate::calls::{CallRefusal, TickAnswer};
use ready::queue::ReadyQueue;

const MAX_TICKS: u32 = 1_000_000_000;

impl<Q: ReadyQueue> Board<Q> {
    // Makes one tick, and tells the task served, its response if the job finished, and the lowest late task.
    pub fn tick(&mut self) -> Result<TickAnswer, CallRefusal>
        ensures answer { DidTick (content self.old.plan) (model Q.ReadyQueue.jobs self.old) result (model Q.ReadyQueue.jobs self.new) }
        ensures refused { is_ok result ≡ false → self.new ≡ self.old }
        ensures plan { self.new.plan ≡ self.old.plan }
    {
        self.not_late()?;
        let tick = self.ticks;
        if tick >= MAX_TICKS {
            return Err(CallRefusal::ClockFull);
        }
        self.tables.turn_all(&self.plan, tick);
        self.waiting.activate_due(&self.plan, &self.tables, tick);
        let served = self.waiting.serve();
        let made = tick + 1;
        self.ticks = made;
        let late = self.waiting.first_late(&self.plan, made);
        self.late = late;
        Ok(TickAnswer::new(served, made, late))
    }
}
