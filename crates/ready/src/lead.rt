// Which of two fronts is the front of both, by any rule of which job goes before which.
ghost use Rattle.std.specs.Prelude.{◌≡◌, Bool, Some, Option};
ghost use Rattle.std.specs.Cmp.{IsStrictWeakOrder};
ghost use Rattle.ready.specs.Jobs.{ahead};
ghost use Rattle.std.specs.List.{flat_map};
ghost use Rattle.std.specs.Option.{option_to_list};
ghost use Rattle.ready.specs.Fronts.{leads, front_of, front_with};
ghost use Rattle.ready.specs.Ranks.{ahead_ranks};
ghost use Rattle.ready.specs.declared.job.Job.{Job};

use crate::job::Job;

// A rule by which one job goes before another.
pub(crate) trait Precedence {
    ghost before: { Self → Job → Job → Bool };

    fn goes_before(&self, a: Job, b: Job) -> bool
        ensures { result ≡ before self.now a b };

    // No two jobs go before each other, and going before none carries over from job to job.
    ghost ranks: { (p : Self) → IsStrictWeakOrder (before p) };
}

// Standing ahead is the rule itself, with ties left to whoever asks.
pub(crate) struct StandingAhead;

impl Precedence for StandingAhead {
    ghost before = { λ _. ahead };

    ghost ranks = { λ _. ahead_ranks };

    fn goes_before(&self, a: Job, b: Job) -> bool {
        a.stands_ahead(b)
    }
}

// Whether the next job, if there is one, takes the lead over the front.
pub(crate) fn takes_lead<P: Precedence>(rule: &P, front: Option<Job>, next: Option<Job>) -> bool
    ensures { result ≡ leads (P.Precedence.before rule.now) front next }
{
    match (front, next) {
        (Some(best), Some(job)) => rule.goes_before(job, best),
        _ => front.is_none(),
    }
}

// On a tie the front stays.
pub(crate) fn front_with<P: Precedence>(
    rule: &P,
    front: Option<Job>,
    next: Option<Job>,
) -> Option<Job>
    ensures { result ≡ front_with (P.Precedence.before rule.now) front next }
{
    if takes_lead(rule, front, next) {
        next
    } else {
        front
    }
}

// What may hold a job: a slot that may be empty, and a job itself.
pub(crate) trait Slot {
    ghost held: { Self → Option Job };

    fn held(&self) -> Option<Job>
        ensures { result ≡ held self.now };
}

impl Slot for Job {
    ghost held = { Some };

    fn held(&self) -> Option<Job> {
        Some(*self)
    }
}

impl Slot for Option<Job> {
    ghost held = { λ slot. slot };

    fn held(&self) -> Option<Job> {
        *self
    }
}

// The front of the jobs held, of tied ones the first.
pub(crate) fn front_among<P: Precedence, S: Slot>(rule: &P, slots: &[S]) -> Option<Job>
    ensures { result ≡ front_of (P.Precedence.before rule.now) (flat_map (λ slot. option_to_list (S.Slot.held slot)) slots.now) }
{
    let mut front = None;
    for slot in slots {
        front = front_with(rule, front, slot.held());
    }
    front
}
