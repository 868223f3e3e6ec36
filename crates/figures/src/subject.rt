// The task whose figure is looked for.
ghost use Rattle.std.specs.Prelude.{◌≡◌, ◌<◌, ◌≤◌};
ghost use Rattle.plan.specs.Content.{task_count};
ghost use Rattle.plan.specs.Plans.{content};
ghost use Rattle.plan.specs.Rules.{hyperperiod_of, work_of};

use plan::Plan;

// A task of a plan that is not overloaded, with the plan's hyperperiod, which is found once for all tasks.
#[derive(Clone, Copy)]
pub struct Subject<'a> {
    pub plan: &'a Plan,
    pub task: usize,
    pub hyperperiod: u32,
    ghost inside: { task < task_count (content plan.now) },
    ghost multiple: { hyperperiod ≡ hyperperiod_of (content plan.now) },
    ghost light: { work_of (content plan.now) ≤ hyperperiod },
}
