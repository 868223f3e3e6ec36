// A task that counts against a job, and what it adds to the demand of a window.
ghost use Rattle.std.specs.Prelude.{◌≡◌, ◌+◌, ◌<◌, ◌≤◌};
ghost use Rattle.plan.specs.Limits.{max_duration};
ghost use Rattle.figures.specs.Loads.{term_of, Small, most_of_task};

use crate::spans::Span;

// A task that is at least as urgent. Its position lies `lead` ticks before the last one of a round of its table.
#[derive(Clone, Copy)]
pub struct Load {
    pub lead: u32,
    pub cost: u32,
    // More urgent: its jobs count as long as the window lasts. A flag, since it is what one comparison told.
    pub above: bool,
}

impl Load {
    // What the task adds, if its table has this duration and begins the window in this phase: a level job counts if it is activated
    // no later than the job that it stands against.
    pub(crate) fn term(&self, duration: u32, phase: u32, span: Span) -> u32
        requires short { duration ≤ max_duration }
        requires small { Small duration self.now }
        requires below { phase < duration }
        ensures value { result ≡ term_of duration self.now phase (span.tick + span.ticks) (span.tick + 1) }
        ensures most { result ≤ most_of_task }
    {
        // A remainder by one test and no division: this is the innermost step of the search.
        let mut start = phase + self.lead;
        if start >= duration {
            start -= duration;
        }
        let ticks = if self.above {
            span.end()
        } else {
            span.tick + 1
        };
        self.cost * ((start + ticks) / duration)
    }
}
