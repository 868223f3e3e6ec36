// A board over any ready queue, alone in its file, so that the definitions above it can name it.
ghost use Rattle.std.specs.Prelude.{◌≤◌};
ghost use Rattle.plan.specs.Plans.{content};
ghost use Rattle.board.specs.Models.{max_ticks};
ghost use Rattle.board.specs.Records.{record_of};
ghost use Rattle.board.specs.Soundness.{Sound};

use crate::tables::Tables;
use crate::waiting::WaitingJobs;
use plan::Plan;
use ready::queue::ReadyQueue;

#[derive(Drop)]
pub struct Board<Q: ReadyQueue> {
    pub(crate) plan: Plan,
    pub(crate) tables: Tables,
    pub(crate) waiting: WaitingJobs<Q>,
    pub(crate) ticks: u32,
    pub(crate) late: Option<usize>,
    ghost clock: { ticks ≤ max_ticks },
    // How tables and jobs hang together, so that every activated job finds its place free.
    ghost sound: { ∥ Sound (content plan) (record { ticks = ticks; tables = record_of tables.records; jobs = Q.ReadyQueue.jobs waiting.queue; late = late }) ∥₁ },
}
