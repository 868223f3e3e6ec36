// A job, and the one rule by which jobs are put in order.
ghost use Rattle.std.specs.Prelude.{◌≡◌, Some, None, if◌then◌else◌};
ghost use Rattle.ready.specs.Jobs.{ahead, fit, ticked, remaining};
ghost use Rattle.ready.specs.Refusals.{number_of, told};
ghost use Rattle.ready.specs.declared.refusal.PutRefusal.TheVariants.{BadJob, Held};

use crate::refusal::PutRefusal;
// Task numbers are below this.
pub use plan::MAX_TASKS;

#[derive(Clone, Copy, PartialEq, Eq, Debug)]
pub struct Job {
    pub task: usize,
    pub priority: u8,
    pub activation: u32,
    pub left: u16,
}

impl Job {
    pub fn stands_ahead(self, other: Job) -> bool
        ensures { result ≡ ahead self other }
    {
        (self.priority, self.activation) < (other.priority, other.activation)
    }

    // A queue may hold it.
    pub(crate) fn is_fit(self) -> bool
        ensures { result ≡ fit self }
    {
        self.task < MAX_TASKS && self.left > 0
    }

    // Whether a queue takes it that holds a job of its task or holds none: what every put asks before it changes anything.
    pub(crate) fn admit(self, held: bool) -> Result<(), PutRefusal>
        ensures { told result ≡ (if fit self then if held then Some (number_of Held) else None else Some (number_of BadJob)) }
    {
        if !self.is_fit() {
            return Err(PutRefusal::BadJob);
        }
        if held {
            return Err(PutRefusal::Held);
        }
        Ok(())
    }

    // The job after it has run for one tick.
    pub(crate) fn after_tick(self) -> Job
        ensures { result ≡ ticked self }
    {
        Job {
            left: self.left.saturating_sub(1),
            ..self
        }
    }

    // What stays of it in a queue: nothing once no tick is left.
    pub(crate) fn remaining(self) -> Option<Job>
        ensures { result ≡ remaining self }
    {
        Some(self).filter(|job| job.left > 0)
    }
}
