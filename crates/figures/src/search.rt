// The search for the figures of a plan.
ghost use Rattle.std.specs.Prelude.{◌≡◌, vec_items, IfOk};
ghost use Rattle.plan.specs.Plans.{content};
ghost use Rattle.figures.specs.Choices.{ListedFor};
ghost use Rattle.figures.specs.Grouped.{Grouped};
ghost use Rattle.figures.specs.Owns.{OwnOf};
ghost use Rattle.figures.specs.Worsts.{WorstOf, Figured};

use crate::choices::choices_of;
use crate::groups::{Group, groups_of};
use crate::subject::Subject;
use crate::windows::{Best, Own};
use crate::worst::Worst;
use plan::{MAX_TABLES, Plan};
use std::alloc::{AllocError, Global};

// All that the search for one task's figure looks at: the task with its own table, the tasks that count against its job, table by
// table, and the choices of phases.
#[derive(Drop)]
pub struct Search<'a> {
    pub subject: Subject<'a>,
    pub own: Own,
    pub groups: Vec<Group>,
    pub choices: Vec<[u32; MAX_TABLES]>,
    ghost owned: { OwnOf (content subject.plan.now) subject.task own },
    ghost grouped: { Grouped (content subject.plan.now) subject.task (vec_items groups) },
}

impl<'a> Search<'a> {
    fn new(heap: Global, subject: Subject<'a>) -> Result<Search<'a>, AllocError>
        ensures subject { IfOk result (λ s. s.subject ≡ subject.entry) }
        ensures listed { IfOk result (λ s. ListedFor (content subject.entry.plan.now) subject.entry.task s.choices.items) }
    {
        let own = Own::from(&subject);
        let groups = groups_of(heap, &subject)?;
        let choices = choices_of(heap, subject.plan, own.table)?;
        Ok(Search {
            subject,
            own,
            groups,
            choices,
        })
    }

    // The worst choice of all windows. A window is left out where the ceiling shows that it has none better, and the search ends where
    // the windows lie too late for a better one.
    fn worst(&self) -> Worst
        requires { ListedFor (content self.now.subject.plan.now) self.now.subject.task self.now.choices.items }
        ensures { WorstOf (content self.now.subject.plan.now) self.now.subject.task result }
    {
        let worst = self.first_choice(self.own.window(0));
        let mut best = Best {
            worst,
            end: worst.figure,
        };
        'windows: for x in 0..self.own.limit {
            let most = best.worst.figure;
            if self.own.is_late(x, most) {
                break 'windows;
            }
            let window = self.own.window(x);
            if self.is_topped(window, most) {
                continue 'windows;
            }
            best = self.try_choices(window, best);
        }
        best.worst
    }
}

// The figure of each task with a choice that attains it; none for a plan that is overloaded.
pub fn figures(heap: Global, plan: &Plan) -> Result<Option<Vec<Worst>>, AllocError>
    ensures { Figured (content plan.now) result }
{
    let hyperperiod = plan.hyperperiod();
    if hyperperiod < plan.work() {
        return Ok(None);
    }
    let mut worsts = Vec::new(heap);
    // A task goes by its number in every promise, so the numbers are counted here; no element is read.
    for task in 0..plan.tasks().len() {
        let subject = Subject {
            plan,
            task,
            hyperperiod,
        };
        let search = Search::new(heap, subject)?;
        worsts.push(search.worst())?;
    }
    Ok(Some(worsts))
}
