// What the search carries from window to window.
ghost use Rattle.std.specs.Prelude.{◌≡◌, ◌+◌, ◌<◌, ◌≤◌, nat_le};
ghost use Rattle.plan.specs.Limits.{max_tables, max_duration, max_hyperperiod};
ghost use Rattle.plan.specs.Plans.{content};

use crate::subject::Subject;
use crate::worst::Worst;

// The table that activates the task, with its duration and the task's position in it, and the hyperperiod, by which every demand is met.
#[derive(Clone, Copy)]
pub struct Own {
    pub table: usize,
    pub position: u32,
    pub duration: u32,
    pub limit: u32,
    ghost inside: { table < max_tables },
    ghost within: { position < duration },
    ghost short: { duration ≤ max_duration },
    ghost bounded: { limit ≤ max_hyperperiod },
}

// A window: the tick in which the task is activated, the task's own table with its phase, and the tick by which every demand is met.
#[derive(Clone, Copy)]
pub struct Window {
    pub tick: u32,
    pub own: usize,
    pub phase: u32,
    pub limit: u32,
    ghost inside: { own < max_tables },
    ghost early: { tick < limit },
    ghost bounded: { limit ≤ max_hyperperiod },
}

// The worst choice so far, and the tick in which the last reach ended.
#[derive(Clone, Copy)]
pub struct Best {
    pub worst: Worst,
    pub end: u32,
    ghost some: { 1 ≤ worst.figure },
}

impl From<&Subject<'_>> for Own {
    ghost use Rattle.figures.specs.Owns.{OwnOf};

    ghost from_gives = { λ s o. OwnOf (content s.now.plan.now) s.now.task o };

    fn from(subject: &Subject<'_>) -> Own {
        let plan = subject.plan;
        let point = plan.points()[plan.tasks()[subject.task].point];
        Own {
            table: point.table,
            position: u32::from(point.position),
            duration: u32::from(plan.tables()[point.table].duration),
            limit: subject.hyperperiod,
        }
    }
}

impl Own {
    ghost use Rattle.figures.specs.Owns.{WindowOf};

    // Whether the windows from tick x on lie too late for a reach above `most`: every reach ends by the limit.
    pub(crate) fn is_late(&self, x: u32, most: u32) -> bool
        requires { x < self.now.limit }
        ensures { result ≡ nat_le self.now.limit (x + most) }
    {
        self.limit - x <= most
    }

    // The window in which the task is activated in tick x.
    pub(crate) fn window(&self, x: u32) -> Window
        requires { x < self.now.limit }
        ensures { WindowOf self.now x result }
    {
        let phase = (self.position + (self.duration - x % self.duration)) % self.duration;
        Window {
            tick: x,
            own: self.table,
            phase,
            limit: self.limit,
        }
    }
}
