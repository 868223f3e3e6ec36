// The jobs that wait, with a note of when each was activated beside the queue: a queue tells only whether it holds a task.
ghost use Rattle.std.specs.Prelude.{◌≡◌, ℕ, ◌<◌, true, length, if◌then◌else◌, Some, None, nat_eq};
ghost use Rattle.plan.specs.Limits.{max_tasks};
ghost use Rattle.ready.specs.Calls.{after_serve, after_tick};
ghost use Rattle.ready.specs.Jobs.{fit};
ghost use Rattle.board.specs.Waits.{Noted, activation_of};

use plan::MAX_TASKS;
use ready::job::Job;
use ready::queue::ReadyQueue;

#[derive(Drop)]
pub(crate) struct WaitingJobs<Q: ReadyQueue> {
    pub(crate) queue: Q,
    // When the job of each task was activated, if one is held. An array: there is one for each task that any plan may have, and none comes or goes.
    pub(crate) since: [u32; MAX_TASKS],
    ghost full: { length since ≡ max_tasks },
    ghost noted: { Noted (Q.ReadyQueue.jobs queue) since },
}

impl<Q: ReadyQueue> WaitingJobs<Q> {
    pub(crate) fn new(mut queue: Q) -> WaitingJobs<Q>
        ensures { (t : ℕ) → Q.ReadyQueue.jobs result.queue t ≡ None }
    {
        queue.clear();
        WaitingJobs {
            queue,
            since: [0; MAX_TASKS],
        }
    }

    // Puts a new job, of a task that has none.
    pub(crate) fn activate(&mut self, job: Job)
        requires { job.task < max_tasks }
        ensures { fit job ≡ true → Q.ReadyQueue.jobs self.old.queue job.task ≡ None → (t : ℕ) → Q.ReadyQueue.jobs self.new.queue t ≡ (if nat_eq t job.task then Some job else Q.ReadyQueue.jobs self.old.queue t) }
    {
        if self.queue.put(job).is_ok() {
            self.since[job.task] = job.activation;
        }
    }

    // Serves the front one tick, and tells it as it then is.
    pub(crate) fn serve(&mut self) -> Option<Job>
        ensures answer { result ≡ after_tick (Q.ReadyQueue.top self.old.queue) }
        ensures jobs { (t : ℕ) → Q.ReadyQueue.jobs self.new.queue t ≡ after_serve (Q.ReadyQueue.jobs self.old.queue) (Q.ReadyQueue.top self.old.queue) t }
    {
        self.queue.serve()
    }

    // When the job of a task was activated, if one is held.
    pub(crate) fn activation(&self, task: usize) -> Option<u32>
        ensures { result ≡ activation_of (Q.ReadyQueue.jobs self.now.queue task) }
    {
        if task < MAX_TASKS && self.queue.holds(task) {
            Some(self.since[task])
        } else {
            None
        }
    }
}
