// Two ready queues as one.
ghost use Rattle.std.specs.Prelude.{◌≡◌, ℕ, None};
ghost use Rattle.ready.specs.Jobs.{ahead};
ghost use Rattle.ready.specs.Fronts.{front_with};
ghost use Rattle.ready.specs.Calls.{Cleared};
ghost use Rattle.ready.specs.Pairs.{both_jobs, Apart, PairOwn};
ghost use Rattle.ready.specs.Sides.{both_stand, pair_fronts};

use crate::job::Job;
use crate::lead::{StandingAhead, front_with, takes_lead};
use crate::queue::ReadyQueue;
use crate::refusal::PutRefusal;

// Jobs with a priority below the cut go to the first side, all others to the second.
#[derive(Drop)]
pub struct Pair<A: ReadyQueue, B: ReadyQueue> {
    first: A,
    second: B,
    cut: u8,
    // The sides share no task.
    ghost apart: { Apart (A.ReadyQueue.jobs first) (B.ReadyQueue.jobs second) },
}

fn cleared<Q: ReadyQueue>(mut queue: Q) -> Q
    ensures own { Q.ReadyQueue.own queue Cleared result }
    ensures jobs { (t : ℕ) → Q.ReadyQueue.jobs result t ≡ None }
{
    queue.clear();
    queue
}

impl<A: ReadyQueue, B: ReadyQueue> Pair<A, B> {
    pub fn new(first: A, second: B, cut: u8) -> Pair<A, B>
        ensures cut { result.cut ≡ cut }
        ensures cleared { A.ReadyQueue.own first Cleared result.first × B.ReadyQueue.own second Cleared result.second }
        ensures jobs { (t : ℕ) → both_jobs (A.ReadyQueue.jobs result.first) (B.ReadyQueue.jobs result.second) t ≡ None }
    {
        Pair {
            first: cleared(first),
            second: cleared(second),
            cut,
        }
    }
}

impl<A: ReadyQueue, B: ReadyQueue> ReadyQueue for Pair<A, B> {
    ghost jobs = { λ p. both_jobs (A.ReadyQueue.jobs p.first) (B.ReadyQueue.jobs p.second) };

    // The front that stands ahead, on a tie the first side's.
    ghost top = { λ p. front_with ahead (A.ReadyQueue.top p.first) (B.ReadyQueue.top p.second) };

    // Which side a change goes to.
    ghost own = { λ p change q. (q.cut ≡ p.cut) × PairOwn A.ReadyQueue.jobs A.ReadyQueue.top A.ReadyQueue.own B.ReadyQueue.jobs B.ReadyQueue.top B.ReadyQueue.own p.cut p.first p.second change q.first q.second };

    ghost stands = { λ q.
        both_stand (A.ReadyQueue.jobs q.first) (B.ReadyQueue.jobs q.second) (A.ReadyQueue.stands q.first) (B.ReadyQueue.stands q.second) };

    ghost fronts = { λ q.
        pair_fronts (A.ReadyQueue.jobs q.first) (B.ReadyQueue.jobs q.second) q.apart
        (A.ReadyQueue.top q.first) (B.ReadyQueue.top q.second)
        (A.ReadyQueue.fronts q.first) (B.ReadyQueue.fronts q.second) };

    fn put(&mut self, job: Job) -> Result<(), PutRefusal> {
        // Only of a job that is fit the sides are asked, each of which may be a pair of pairs.
        job.admit(job.is_fit() && self.holds(job.task))?;
        if job.priority < self.cut {
            self.first.put(job)
        } else {
            self.second.put(job)
        }
    }

    fn front(&self) -> Option<Job> {
        front_with(&StandingAhead, self.first.front(), self.second.front())
    }

    fn serve(&mut self) -> Option<Job> {
        let first = self.first.front();
        let second = self.second.front();
        if takes_lead(&StandingAhead, first, second) {
            self.second.serve()
        } else {
            self.first.serve()
        }
    }

    fn holds(&self, task: usize) -> bool {
        self.first.holds(task) || self.second.holds(task)
    }

    fn clear(&mut self) {
        self.first.clear();
        self.second.clear();
    }
}
