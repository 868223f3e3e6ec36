// A ready queue that serves tied jobs in the order of their puts.
ghost use Rattle.std.specs.Prelude.{◌≡◌, ℕ, ◌<◌, ◌≤◌, true, false, [], ◌∷◌, ◌++◌, is_some, IfSome, IfOk, if◌then◌else◌, Some, vec_len, vec_capacity, nat_eq, nat_lt, slice_set};
ghost use Rattle.std.specs.List.{remove};
ghost use Rattle.std.specs.Map.{update};
ghost use Rattle.ready.specs.Jobs.{task_limit, ahead, fit, remaining};
ghost use Rattle.ready.specs.Calls.{FrontBy};
ghost use Rattle.ready.specs.Fronts.{front_of};
ghost use Rattle.ready.specs.Arrivals.{job_of, sound, PlaceOf, replaced, arrivals_after};
ghost use Rattle.ready.specs.Entries.{entry_placed, arrival_front};

use crate::job::{Job, MAX_TASKS};
use crate::lead::{StandingAhead, front_among};
use crate::queue::ReadyQueue;
use crate::refusal::PutRefusal;
use std::alloc::{AllocError, Global};

#[derive(Drop)]
pub struct ArrivalList {
    // The jobs in the order of their puts. It has room for a job of each task from the start, so a put needs no memory.
    list: Vec<Job>,
    ghost apart: { sound list.items ≡ true },
    ghost room: { task_limit ≤ vec_capacity list },
}

// The place of the job of a task, if there is one.
fn place_of(list: &[Job], task: usize) -> Option<usize>
    ensures found { IfSome result (PlaceOf list.now task) }
    ensures held { is_some result ≡ is_some (job_of list.now task) }
{
    list.iter().position(|job| job.task == task)
}

// Makes the job what stands at that place, or takes that out if the job has no tick left.
fn settle_at(list: &mut Vec<Job>, place: usize, job: Job)
    requires { place < vec_len list.old }
    ensures items { list.new.items ≡ (if nat_lt 0 job.left then slice_set list.old.items place job else remove list.old.items place) }
    ensures capacity { vec_capacity list.new ≡ vec_capacity list.old }
{
    match job.remaining() {
        Some(job) => list[place] = job,
        None => {
            let _ = list.remove(place);
        }
    }
}

impl ArrivalList {
    pub fn new(heap: Global) -> Result<ArrivalList, AllocError>
        ensures { IfOk result (λ q. q.list.items ≡ []) }
    {
        Ok(ArrivalList {
            list: Vec::with_capacity(heap, MAX_TASKS)?,
        })
    }

    // Puts the job at the end. No two jobs are of one task, so there is room.
    fn append(&mut self, job: Job)
        requires fit { fit job ≡ true }
        requires free { is_some (job_of self.old.list.items job.task) ≡ false }
        ensures list { self.new.list.items ≡ self.old.list.items ++ job ∷ [] }
        ensures change { (t : ℕ) → job_of self.new.list.items t ≡ update nat_eq (job_of self.old.list.items) job.task (Some job) t }
    {
        self.list.push_reserved(job);
    }

    // Puts the job in the place of the one held of its task, or takes that out if the job has no tick left.
    fn settle(&mut self, job: Job)
        requires { is_some (job_of self.old.list.items job.task) ≡ true }
        ensures list { self.new.list.items ≡ replaced self.old.list.items job.task (remaining job) }
        ensures change { (t : ℕ) → job_of self.new.list.items t ≡ update nat_eq (job_of self.old.list.items) job.task (remaining job) t }
    {
        if let Some(place) = place_of(&self.list, job.task) {
            settle_at(&mut self.list, place, job);
        }
    }
}

impl ReadyQueue for ArrivalList {
    ghost jobs = { λ q. job_of q.list.items };

    // The first in put order of the jobs that no other stands ahead of.
    ghost top = { λ q. front_of ahead q.list.items };

    // Which job stands where in the order of the puts.
    ghost own = { λ q change after. after.list.items ≡ arrivals_after q.list.items change };

    ghost stands = { λ q. entry_placed q.list.items q.apart };

    ghost fronts = { λ q. arrival_front q.list.items q.apart };

    fn put(&mut self, job: Job) -> Result<(), PutRefusal> {
        job.admit(self.holds(job.task))?;
        self.append(job);
        Ok(())
    }

    fn front(&self) -> Option<Job>
        ensures value { result ≡ front_of ahead self.now.list.items }
        ensures rule { FrontBy ahead (job_of self.now.list.items) result }
    {
        front_among(&StandingAhead, &self.list)
    }

    fn serve(&mut self) -> Option<Job> {
        let front = self.front()?;
        let job = front.after_tick();
        self.settle(job);
        Some(job)
    }

    fn holds(&self, task: usize) -> bool {
        place_of(&self.list, task).is_some()
    }

    fn clear(&mut self) {
        self.list.clear();
    }
}
