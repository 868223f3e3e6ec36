// A window as far as a job takes it.
ghost use Rattle.std.specs.Prelude.{◌≡◌, ◌+◌, ◌≤◌};
ghost use Rattle.plan.specs.Limits.{max_hyperperiod};

// The tick of the window in which the job is activated, and the ticks that it takes, the first one counted.
#[derive(Clone, Copy)]
pub struct Span {
    pub tick: u32,
    pub ticks: u32,
    ghost some: { 1 ≤ ticks },
    ghost short: { tick + ticks ≤ max_hyperperiod },
}

impl Span {
    // How many ticks of the window that makes in all.
    pub(crate) fn end(self) -> u32
        ensures { result ≡ self.tick + self.ticks }
    {
        self.tick + self.ticks
    }
}
