// The hyperperiod of a plan, and the work that its tasks ask for in one hyperperiod.
ghost use Rattle.std.specs.Prelude.{◌≡◌, ◌≤◌, ◌%◌, ℕ, true, All, Contains};
ghost use Rattle.plan.specs.Drafts.{drafted};
ghost use Rattle.plan.specs.Plans.{content};
ghost use Rattle.plan.specs.Rules.{divides, common_to, hyperperiod_found, hyperperiod_of, task_work, work_of, LeastCommonMultiple};

use crate::drafts::Draft;
use crate::limits::MAX_HYPERPERIOD;
use crate::model::Plan;
use crate::records::Task;

fn is_divisor(d: u32, h: u32) -> bool
    ensures { result ≡ divides d h }
{
    d != 0 && h % d == 0
}

impl Draft {
    // Whether h is a multiple of every table's duration.
    fn is_common(&self, h: u32) -> bool
        ensures { result ≡ common_to (drafted self.now).tables h }
    {
        self.tables
            .iter()
            .all(|t| is_divisor(u32::from(t.duration), h))
    }

    // The longest duration, and 1 where there is none: a step by which to count, so never 0.
    fn longest(&self) -> u32
        ensures positive { 1 ≤ result }
        ensures longest { All (λ t. t.duration ≤ result) (drafted self.now).tables }
        ensures divides_all { (h : ℕ) → common_to (drafted self.now).tables h ≡ true → h % result ≡ 0 }
    {
        self.tables
            .iter()
            .map(|t| u32::from(t.duration))
            .fold(1, u32::max)
    }

    // The least common multiple of the durations, none where it is above the limit. Only the multiples of the longest
    // duration are tried: every common multiple is one of them.
    pub(crate) fn hyperperiod(&self) -> Option<u32>
        ensures { result ≡ hyperperiod_found (drafted self.now) }
    {
        let step = self.longest();
        (1..=MAX_HYPERPERIOD / step)
            .map(|n| n * step)
            .find(|h| self.is_common(*h))
    }
}

impl Plan {
    // The least common multiple of the durations.
    pub fn hyperperiod(&self) -> u32
        ensures defined { result ≡ hyperperiod_of (content self.now) }
        ensures law { LeastCommonMultiple (content self.now) result }
    {
        self.draft.hyperperiod().unwrap()
    }

    // The processor time that a task asks for in one hyperperiod, which is passed in: it is sought once for all tasks.
    fn task_work(&self, task: &Task, hyperperiod: u32) -> u32
        requires held { Contains (content self.now).tasks task.now }
        requires multiple { hyperperiod ≡ hyperperiod_of (content self.now) }
        ensures { result ≡ task_work (content self.now) task.now }
    {
        let table = self.points()[task.point].table;
        let duration = u32::from(self.tables()[table].duration);
        u32::from(task.execution) * hyperperiod / duration
    }

    // The processor time that all tasks ask for in one hyperperiod.
    pub fn work(&self) -> u32
        ensures { result ≡ work_of (content self.now) }
    {
        let hyperperiod = self.hyperperiod();
        self.tasks()
            .iter()
            .map(|task| self.task_work(task, hyperperiod))
            .sum()
    }
}
