// Puts a few tied jobs into each ready queue, and shows the numbers of the refusals and the order of service.
#![tactic(auto)]

ghost use Rattle.std.specs.Prelude.{◌≡◌};
ghost use Rattle.std.specs.Option.{unwrap_or};
ghost use Rattle.ready.specs.Refusals.{told};

use ready::arrival::ArrivalList;
use ready::examiner::ExaminerQueue;
use ready::job::Job;
use ready::pair::Pair;
use ready::queue::ReadyQueue;
use ready::refusal::PutRefusal;

// The number of a refusal, and 0 where there is none.
fn number(answer: Result<(), PutRefusal>) -> u8
    ensures { result ≡ unwrap_or (told answer) 0 }
{
    answer.err().map_or(0, PutRefusal::number)
}

fn puts<Q: ReadyQueue>(rt: &HostRuntime, queue: &mut Q) -> anyhow::Result<()> {
    let jobs = [
        Job {
            task: 3,
            priority: 2,
            activation: 5,
            left: 2,
        },
        Job {
            task: 1,
            priority: 2,
            activation: 5,
            left: 1,
        },
        Job {
            task: 16,
            priority: 2,
            activation: 5,
            left: 1,
        },
        Job {
            task: 1,
            priority: 0,
            activation: 0,
            left: 1,
        },
        Job {
            task: 9,
            priority: 2,
            activation: 5,
            left: 0,
        },
    ];
    for job in jobs {
        print!(rt; "{} ", number(queue.put(job)))?;
    }
    println!(rt; "")?;
    Ok(())
}

fn serves<Q: ReadyQueue>(rt: &HostRuntime, queue: &mut Q) -> anyhow::Result<()> {
    for _ in 0..4u8 {
        match queue.serve() {
            Some(job) => println!(rt; "task {}, {} left", job.task, job.left)?,
            None => println!(rt; "none")?,
        }
    }
    Ok(())
}

fn show<Q: ReadyQueue>(rt: &HostRuntime, queue: &mut Q) -> anyhow::Result<()> {
    puts(rt, queue)?;
    serves(rt, queue)
}

fn main(rt: HostRuntime) -> anyhow::Result<()> {
    let mut arrival = ArrivalList::new(rt.alloc())?;
    show(&rt, &mut arrival)?;
    let mut watching = ExaminerQueue::new(1);
    show(&rt, &mut watching)?;
    let mut plain = ExaminerQueue::new(99);
    show(&rt, &mut plain)?;
    // Priority 2 is not below the outer cut, and below the inner one: the plain queue gets these jobs.
    let mut pair = Pair::new(watching, Pair::new(plain, arrival, 7), 2);
    show(&rt, &mut pair)
}
