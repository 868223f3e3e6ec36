// The calls of a driver, their answers, and why a call is refused.
ghost use Rattle.std.specs.Prelude.{◌≡◌};
ghost use Rattle.board.specs.Refusals.{number_of, state_number, tick_answer};

use crate::records::TableState;
use ready::job::Job;

#[derive(Clone, Copy, Debug, PartialEq, Eq)]
pub enum Call {
    Start { table: usize, delay: u32 },
    Stop { table: usize },
    State { table: usize },
    Tick,
}

#[derive(Clone, Copy, Debug, PartialEq, Eq)]
pub enum CallRefusal {
    // A job is late: the board answers only questions.
    LateBoard = 32,
    NoTable = 3,
    // Start of a table that waits or runs.
    NotStopped = 7,
    // Stop of a table that is stopped.
    NotStarted = 5,
    BadDelay = 8,
    // The round would begin before its table may begin one.
    TooEarly = 31,
    ClockFull = 33,
}

// What a tick tells: the task served, its response if that job finished, and the lowest late task.
#[derive(Clone, Copy, Debug, PartialEq, Eq)]
pub struct TickAnswer {
    pub served: Option<usize>,
    pub response: Option<u32>,
    pub late: Option<usize>,
}

// What a call that is not refused tells.
#[derive(Clone, Copy, Debug, PartialEq, Eq)]
pub enum Answer {
    Done,
    State { state: TableState },
    Ticked { told: TickAnswer },
}

// How a call is answered: what it tells, or why it is refused.
pub type Outcome = Result<Answer, CallRefusal>;

impl CallRefusal {
    // The number by which the refusal is reported.
    pub fn number(self) -> u8
        ensures { result ≡ number_of self }
    {
        self as u8
    }
}

impl TableState {
    // The number by which the state is reported. By cases, since two of them hold a value.
    pub fn number(self) -> u8
        ensures { result ≡ state_number self }
    {
        match self {
            TableState::Stopped => 0,
            TableState::Waiting { .. } => 1,
            TableState::Running { .. } => 2,
        }
    }
}

impl TickAnswer {
    // What a tick tells of the job that it served, as that job then is.
    pub(crate) fn new(served: Option<Job>, made: u32, late: Option<usize>) -> TickAnswer
        ensures { result ≡ tick_answer served made late }
    {
        TickAnswer {
            served: served.map(|job| job.task),
            response: served
                .filter(|job| job.left == 0)
                .map(|job| made.saturating_sub(job.activation)),
            late,
        }
    }
}
