// A whole drive: calls on one new board, with their answers.
ghost use Rattle.std.specs.Prelude.{◌≡◌, false, List, IfOk};
ghost use Rattle.plan.specs.Plans.{content};
ghost use Rattle.board.specs.Boards.{model};
ghost use Rattle.board.specs.Drives.{Step, is_ticked, Driven};
ghost use Rattle.board.specs.Models.{Alike, fresh};

use crate::boards::Board;
use crate::calls::{Answer, Call, Outcome};
use plan::Plan;
use ready::queue::ReadyQueue;
use std::alloc::{AllocError, Global};

impl<Q: ReadyQueue> Board<Q> {
    // Makes one call. By cases: a drive is a list of calls, so they are values that laws and programs can name, and no closures.
    pub fn call(&mut self, call: Call) -> Outcome
        ensures answer { Step (content self.old.plan) (model Q.ReadyQueue.jobs self.old) call result (model Q.ReadyQueue.jobs self.new) }
        ensures queue { is_ticked result ≡ false → self.new.waiting ≡ self.old.waiting }
        ensures plan { self.new.plan ≡ self.old.plan }
    {
        match call {
            Call::Start { table, delay } => self.start(table, delay).map(|()| Answer::Done),
            Call::Stop { table } => self.stop(table).map(|()| Answer::Done),
            Call::State { table } => self.state(table).map(|state| Answer::State { state }),
            Call::Tick => self.tick().map(|told| Answer::Ticked { told }),
        }
    }

    // Makes the calls one after another on a new board.
    fn make_all(&mut self, heap: Global, calls: &[Call]) -> Result<Vec<Outcome>, AllocError>
        ensures { Alike (model Q.ReadyQueue.jobs self.old) fresh → IfOk result (λ answers. Driven (content self.old.plan) calls.now answers.items) }
    {
        let mut answers = Vec::with_capacity(heap, calls.len())?;
        for call in calls {
            answers.push(self.call(*call))?;
        }
        Ok(answers)
    }
}

// Makes a whole drive on a new board of the plan.
pub fn drive<Q: ReadyQueue + Drop>(
    heap: Global,
    plan: &Plan,
    queue: Q,
    calls: &[Call],
) -> Result<Vec<Outcome>, AllocError>
    ensures { IfOk result (λ answers. Driven (content plan.now) calls.now answers.items) }
{
    let mut board = Board::rehearse(heap, plan, queue)?;
    board.make_all(heap, calls)
}
