// What a line asks for, by its words.
ghost use Rattle.std.specs.Prelude.{◌≡◌, ℕ, List};
ghost use Rattle.orders.specs.Words.{blank, words_of, BeginsWith};
ghost use Rattle.orders.specs.Lines.{asked, order_of};
ghost use Rattle.orders.specs.Laws.{ReadsBack};

use crate::numbers::read_number;
use crate::order::Order;

// The library's own white space of ASCII lacks the vertical tab.
fn is_blank(byte: u8) -> bool
    ensures { result ≡ blank byte }
{
    matches!(byte, b' ' | b'\t'..=b'\r')
}

// The words of a line in order, as far as they can matter: with a fourth it cannot be read.
fn first_words(line: &[u8]) -> [Option<&[u8]>; 4]
    ensures { BeginsWith (words_of line.now) result }
{
    let mut words = line
        .split(|byte| is_blank(*byte))
        .filter(|word| !word.is_empty());
    let verb = words.next();
    let first = words.next();
    let second = words.next();
    let more = words.next();
    [verb, first, second, more]
}

// What words ask for, told as far as they can matter: a verb with up to two numbers. What stands past the first none
// does not matter.
pub fn order_in(told: [Option<&[u8]>; 4]) -> Option<Order>
    ensures { (words : List (List ℕ)) → BeginsWith words told.entry → result ≡ asked words }
{
    match told {
        [Some(b"start"), Some(first), Some(second), None] => Some(Order::Start {
            table: read_number(first)?,
            delay: read_number(second)?,
        }),
        [Some(b"stop"), Some(table), None, _] => Some(Order::Stop {
            table: read_number(table)?,
        }),
        [Some(b"state"), Some(table), None, _] => Some(Order::State {
            table: read_number(table)?,
        }),
        [Some(b"tick"), None, ..] => Some(Order::Ticks { count: 1 }),
        [Some(b"tick"), Some(count), None, _] => Some(Order::Ticks {
            count: read_number(count)?,
        }),
        _ => None,
    }
}

// What a line asks for, if it can be read.
pub fn read_order(line: &[u8]) -> Option<Order>
    ensures meaning { result ≡ order_of line.now }
    ensures back { ReadsBack line.now result }
{
    order_in(first_words(line))
}
