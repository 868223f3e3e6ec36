// Why a put is refused, with the number of each reason.
ghost use Rattle.std.specs.Prelude.{◌≡◌};
ghost use Rattle.ready.specs.Refusals.{number_of};

#[derive(Clone, Copy, PartialEq, Eq, Debug)]
pub enum PutRefusal {
    // The task number is past the limit, or no tick is left to run.
    BadJob = 42,
    // A job of that task is held already.
    Held = 41,
}

impl PutRefusal {
    // The number by which the refusal is reported.
    pub fn number(self) -> u8
        ensures { result ≡ number_of self }
    {
        self as u8
    }
}
