// What every ready queue promises.
ghost use Rattle.std.specs.Prelude.{◌≡◌, ℕ, true, false, is_some, is_ok, None, Option};
ghost use Rattle.ready.specs.Jobs.{ahead};
ghost use Rattle.ready.specs.Refusals.{told};
ghost use Rattle.ready.specs.Calls.{Jobs, Change, Added, Served, Cleared, placed, FrontBy, put_number, after_put, after_serve, after_tick};
ghost use Rattle.ready.specs.declared.job.Job.{Job};

use crate::job::Job;
use crate::refusal::PutRefusal;

// No call fails for want of memory, and a call on any queue is safe and ends.
pub trait ReadyQueue {
    // The jobs held, in no order.
    ghost jobs: { Self → Jobs };

    // The job that `front` tells.
    ghost top: { Self → Option Job };

    // What a queue promises of a change beyond what every queue does, as the order of its tied jobs.
    ghost own: { Self → Change → Self → Type 0 };

    // Adds a job, or refuses it and changes nothing.
    fn put(&mut self, job: Job) -> Result<(), PutRefusal>
        ensures answer { told result ≡ put_number (jobs self.old) job }
        ensures change { (t : ℕ) → jobs self.new t ≡ after_put (jobs self.old) job t }
        ensures refused { is_ok result ≡ false → self.new ≡ self.old }
        ensures added { is_ok result ≡ true → own self.old (Added job) self.new };

    // Which of tied jobs this is, each queue settles by its `top`.
    fn front(&self) -> Option<Job>
        ensures { result ≡ top self.now };

    // Takes one tick off the front and tells it as it then is; at no tick left it leaves the queue.
    fn serve(&mut self) -> Option<Job>
        ensures answer { result ≡ after_tick (top self.old) }
        ensures change { (t : ℕ) → jobs self.new t ≡ after_serve (jobs self.old) (top self.old) t }
        ensures empty { is_some result ≡ false → self.new ≡ self.old }
        ensures served { is_some result ≡ true → own self.old Served self.new };

    // Whether a job of that task is there.
    fn holds(&self, task: usize) -> bool
        ensures { result ≡ is_some (jobs self.now task) };

    fn clear(&mut self)
        ensures change { (t : ℕ) → jobs self.new t ≡ None }
        ensures cleared { own self.old Cleared self.new };

    // Each job stands at its own number, below the limit, with ticks left.
    ghost stands: { (q : Self) → (t : ℕ) → placed t (jobs q t) ≡ true };

    // The top is a held job that no held job stands ahead of, and none exactly if nothing is held.
    ghost fronts: { (q : Self) → FrontBy ahead (jobs q) (top q) };
}
