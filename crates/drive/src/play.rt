// Plays a drive on a new board, line by line.
ghost use Rattle.std.specs.Prelude.{◌≡◌, IsAscii};
ghost use Rattle.orders.specs.Lines.{order_of};

use anyhow::bail;
use board::{Answer, Board, Call, Outcome};
use orders::{Order, order_in, read_order};
use plan::Plan;
use ready::queue::ReadyQueue;
use std::fmt;

// A part of a line, `-` where there is nothing to tell.
#[derive(Clone, Copy)]
struct Part<T>(Option<T>);

impl<T: fmt::Display> fmt::Display for Part<T> {
    fn fmt<W: fmt::Write>(&self, f: &mut fmt::Formatter<W>) -> fmt::Result {
        match &self.0 {
            Some(told) => write!(f, "{told}"),
            None => write!(f, "-"),
        }
    }
}

fn print_outcome(rt: &HostRuntime, outcome: Outcome, made: u32) -> anyhow::Result<()> {
    match outcome {
        Ok(Answer::Done) => println!(rt; "OK")?,
        Ok(Answer::State { state }) => println!(rt; "STATE {}", state.number())?,
        Ok(Answer::Ticked { told }) => println!(rt;
            "TICK {made} {} {} {}",
            Part(told.served),
            Part(told.response),
            Part(told.late)
        )?,
        Err(why) => println!(rt; "REFUSED {}", why.number())?,
    }
    Ok(())
}

// A table's number; one that is too large is the largest, at which no board has a table.
fn table_at(table: u64) -> usize {
    usize::try_from(table).unwrap_or(usize::MAX)
}

// The call that an order asks for, and how often. A delay that is too large is refused as one.
fn calls_of(asked: Order) -> (Call, u64) {
    match asked {
        Order::Start { table, delay } => {
            let table = table_at(table);
            let delay = u32::try_from(delay).unwrap_or(u32::MAX);
            (Call::Start { table, delay }, 1)
        }
        Order::Stop { table } => {
            let table = table_at(table);
            (Call::Stop { table }, 1)
        }
        Order::State { table } => {
            let table = table_at(table);
            (Call::State { table }, 1)
        }
        Order::Ticks { count } => (Call::Tick, count),
    }
}

// Makes the calls that are asked for, and prints each answer.
fn obey<Q: ReadyQueue>(rt: &HostRuntime, board: &mut Board<Q>, asked: Order) -> anyhow::Result<()> {
    let (call, count) = calls_of(asked);
    for _ in 0..count {
        let outcome = board.call(call);
        print_outcome(rt, outcome, board.ticks_made())?;
    }
    Ok(())
}

// What a line asks for. White space beyond ASCII parts words here, too, which for `read_order` is no white space.
fn asked_in(line: &str) -> Option<Order>
    ensures { IsAscii line.now → result ≡ order_of line.now }
{
    if line.is_ascii() {
        return read_order(line.as_bytes());
    }
    let mut words = line.split_whitespace().map(str::as_bytes);
    let verb = words.next();
    let first = words.next();
    let second = words.next();
    let more = words.next();
    order_in([verb, first, second, more])
}

pub(crate) fn play<Q: ReadyQueue + Drop>(
    rt: &HostRuntime,
    plan: &Plan,
    queue: Q,
) -> anyhow::Result<()> {
    let Ok(mut board) = Board::rehearse(rt.alloc(), plan, queue) else {
        bail!("no memory for the board");
    };
    for (place, line) in (1u64..).zip(rt.lines(rt.alloc())) {
        match asked_in(&line?) {
            Some(asked) => obey(rt, &mut board, asked)?,
            None => eprintln!(rt; "line {place}: not understood")?,
        }
    }
    Ok(())
}
