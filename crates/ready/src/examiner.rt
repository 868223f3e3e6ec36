// A ready queue that lets the watched task wait behind every job it is tied with.
ghost use Rattle.std.specs.Prelude.{◌≡◌, ℕ, ◌<◌, true, length, None, nat_eq};
ghost use Rattle.std.specs.Map.{update};
ghost use Rattle.ready.specs.Jobs.{task_limit};
ghost use Rattle.ready.specs.Calls.{placed, FrontBy};
ghost use Rattle.ready.specs.Examiners.{slot_of, turn, goes_before, examiners_front};
ghost use Rattle.ready.specs.Ranks.{before_ranks};
ghost use Rattle.ready.specs.Slots.{examiner_front, front_ahead};

use crate::job::{Job, MAX_TASKS};
use crate::lead::{Precedence, front_among};
use crate::queue::ReadyQueue;
use crate::refusal::PutRefusal;

// Of tied jobs the lowest task number goes first, but the watched task goes last.
#[derive(Drop)]
pub struct ExaminerQueue {
    // Any number may be watched: one that no task has watches nobody, so nothing is refused and there is no case of none.
    watch: usize,
    // Each task's job, by task number. An array, so that `new` cannot want for memory.
    slots: [Option<Job>; MAX_TASKS],
    ghost full: { length slots ≡ task_limit },
    ghost each: { (t : ℕ) → placed t (slot_of slots t) ≡ true },
}

fn empty_slots() -> [Option<Job>; MAX_TASKS]
    ensures len { length result ≡ task_limit }
    ensures none { (t : ℕ) → slot_of result t ≡ None }
{
    [None; MAX_TASKS]
}

impl ExaminerQueue {
    pub fn new(watch: usize) -> ExaminerQueue
        ensures watch { result.watch ≡ watch }
        ensures jobs { (t : ℕ) → slot_of result.slots t ≡ None }
    {
        ExaminerQueue {
            watch,
            slots: empty_slots(),
        }
    }

    // The job's turn among jobs it is tied with.
    fn turn_of(&self, job: Job) -> usize
        ensures { result ≡ turn self.now.watch job }
    {
        if job.task == self.watch {
            MAX_TASKS
        } else {
            job.task
        }
    }

    // Puts what is given into the slot of that task.
    fn fill(&mut self, task: usize, given: Option<Job>)
        requires place { task < task_limit }
        requires given { placed task given ≡ true }
        ensures change { (t : ℕ) → slot_of self.new.slots t ≡ update nat_eq (slot_of self.old.slots) task given t }
        ensures watch { self.new.watch ≡ self.old.watch }
    {
        self.slots[task] = given;
    }
}

// The examiner's rule: standing ahead, and among tied jobs the earlier turn. By standing ahead itself, which is said once.
impl Precedence for ExaminerQueue {
    ghost before = { λ q. goes_before q.watch };

    ghost ranks = { λ q. before_ranks q.watch };

    fn goes_before(&self, a: Job, b: Job) -> bool {
        a.stands_ahead(b) || (!b.stands_ahead(a) && self.turn_of(a) < self.turn_of(b))
    }
}

impl ReadyQueue for ExaminerQueue {
    ghost jobs = { λ q. slot_of q.slots };

    // The job that goes first by the examiner's rule.
    ghost top = { λ q. examiners_front q.watch q.slots };

    // No change touches the watch number.
    ghost own = { λ q _ after. after.watch ≡ q.watch };

    ghost stands = { λ q. q.each };

    ghost fronts = { λ q. front_ahead q.watch (slot_of q.slots) (examiners_front q.watch q.slots) (examiner_front q.watch q.slots q.each) };

    fn put(&mut self, job: Job) -> Result<(), PutRefusal> {
        job.admit(self.holds(job.task))?;
        self.fill(job.task, Some(job));
        Ok(())
    }

    fn front(&self) -> Option<Job>
        ensures value { result ≡ examiners_front self.now.watch self.now.slots }
        ensures rule { FrontBy (goes_before self.now.watch) (slot_of self.now.slots) result }
    {
        front_among(self, &self.slots)
    }

    fn serve(&mut self) -> Option<Job> {
        let job = self.front()?.after_tick();
        self.fill(job.task, job.remaining());
        Some(job)
    }

    fn holds(&self, task: usize) -> bool {
        task < MAX_TASKS && self.slots[task].is_some()
    }

    fn clear(&mut self) {
        self.slots = empty_slots();
    }
}
