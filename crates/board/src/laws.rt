// The laws of every drive over any ready queue, and of every board. Each function's promise is the law; there is nothing to compute.
ghost use Rattle.plan.specs.Plans.{content};
ghost use Rattle.board.specs.Boards.{model};
ghost use Rattle.board.specs.Laws.{Rounds, Service};
ghost use Rattle.board.specs.Soundness.{Sound};

use crate::boards::Board;
use ready::queue::ReadyQueue;

// Rounds of a table that began are the same or at least its duration apart, and a running table moves one position a tick.
pub fn rounds_stand()
    ensures { Rounds }
{}

// Each answered tick serves a job that no other stands ahead of, or none with nothing waiting; every put is accepted.
pub fn service_stands()
    ensures { Service }
{}

impl<Q: ReadyQueue> Board<Q> {
    // How the tables, the jobs and the late task of any board hang together.
    pub fn soundness_stands(&self)
        ensures { Sound (content self.now.plan) (model Q.ReadyQueue.jobs self.now) }
    {}
}
