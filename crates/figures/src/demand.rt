// The demand of a window, and its reach.
ghost use Rattle.std.specs.Prelude.{◌≡◌, ◌+◌, ◌-◌, ◌<◌, ◌≤◌, nat_le, slice_index};
ghost use Rattle.plan.specs.Limits.{max_hyperperiod};
ghost use Rattle.figures.specs.Loads.{demand_of, Phased};
ghost use Rattle.figures.specs.Reaches.{ReachOf};

use crate::groups::Group;
use crate::spans::Span;
use crate::windows::Window;
use plan::MAX_TABLES;

// The groups of all tables, with the phase in which each table begins the window. Two lists, since the groups stay while the phases change.
#[derive(Clone, Copy)]
pub struct Phasing<'a> {
    pub groups: &'a [Group],
    pub phases: [u32; MAX_TABLES],
    ghost phased: { Phased groups.now phases },
}

impl Phasing<'_> {
    // What all tables add.
    fn demand(&self, span: Span) -> u32
        ensures { result ≡ demand_of self.now.groups.now (λ i. slice_index self.now.phases i) span.tick span.ticks }
    {
        // A loop, not a sum: that each part fits and may be asked for was not found of the closure.
        let mut sum = 0;
        for (group, phase) in self.groups.iter().zip(&self.phases) {
            sum += group.part(*phase, span);
        }
        sum
    }

    // Whether so many ticks are enough for their demand: then they bound the reach.
    pub(crate) fn is_enough(&self, span: Span) -> bool
        ensures { result ≡ nat_le (demand_of self.now.groups.now (λ i. slice_index self.now.phases i) span.tick span.ticks) (span.tick + span.ticks) }
    {
        self.demand(span) <= span.end()
    }

    // The reach of the window: no number below a demand that is not met in time can do, since the demand never falls.
    pub(crate) fn reach(&self, window: Window) -> u32
        requires { demand_of self.now.groups.now (λ i. slice_index self.now.phases i) window.tick (window.limit - window.tick) ≤ window.limit }
        ensures { ReachOf self.now.groups.now window.tick (λ i. slice_index self.now.phases i) result }
    {
        let tick = window.tick;
        let mut ticks = 1;
        loop {
            let needed = self.demand(Span { tick, ticks });
            if needed <= tick + ticks {
                break ticks;
            }
            ticks = needed - tick;
        }
    }
}
