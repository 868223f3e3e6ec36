// The plan itself, alone in its file, so that the definitions above it can name it.
ghost use Rattle.std.specs.Prelude.{◌≡◌, true};
ghost use Rattle.plan.specs.Drafts.{drafted};
ghost use Rattle.plan.specs.Rules.{lawful};

use crate::drafts::Draft;

// A draft that keeps the rules. Every plan that exists keeps them: no code above has to test them again.
#[derive(Drop)]
pub struct Plan {
    pub(crate) draft: Draft,
    ghost kept: { lawful (drafted draft) ≡ true },
}
