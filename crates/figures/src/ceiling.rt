// The most that any choice of points can add to the demand of a window.
ghost use Rattle.std.specs.Prelude.{◌≡◌, ◌+◌, ◌<◌, ◌≤◌, nat_le, slice_index_or};
ghost use Rattle.plan.specs.Plans.{content};
ghost use Rattle.figures.specs.Loads.{no_rivals};
ghost use Rattle.figures.specs.Ceilings.{ceiling_of};

use crate::search::Search;
use crate::spans::Span;
use crate::windows::Window;

impl Search<'_> {
    // The most that all tables add, if the own table has the window's phase.
    fn ceiling(&self, window: Window, span: Span) -> u32
        requires { window.phase < (slice_index_or self.now.groups.items window.own no_rivals).duration }
        ensures { result ≡ ceiling_of (content self.now.subject.plan.now).points self.now.groups.items window.own window.phase (span.tick + span.ticks) (span.tick + 1) }
    {
        let points = self.subject.plan.points();
        let mut sum = 0;
        for (table, group) in self.groups.iter().enumerate() {
            sum += if table == window.own {
                group.part(window.phase, span)
            } else {
                group.peak(points, table, span)
            };
        }
        sum
    }

    // Whether the ceiling shows that no choice of the window has a reach above `most`.
    pub(crate) fn is_topped(&self, window: Window, most: u32) -> bool
        requires below { window.phase < (slice_index_or self.now.groups.items window.own no_rivals).duration }
        requires some { 1 ≤ most }
        requires ends { window.tick + most ≤ window.limit }
        ensures { result ≡ nat_le (ceiling_of (content self.now.subject.plan.now).points self.now.groups.items window.own window.phase (window.tick + most) (window.tick + 1)) (window.tick + most) }
    {
        let span = Span {
            tick: window.tick,
            ticks: most,
        };
        self.ceiling(window, span) <= span.end()
    }
}
