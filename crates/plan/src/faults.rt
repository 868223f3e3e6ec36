// What can be wrong with a plan file, layer by layer: its bytes, a command, the plan it sets down.
ghost use Rattle.std.specs.Prelude.{◌≡◌, Some};
ghost use Rattle.plan.specs.Faults.{number_of, garbled, raised, fault_text};
ghost use Rattle.plan.specs.declared.faults.Fault.TheVariants.{Memory};

use std::alloc::{AllocError, AllocFailed};
use std::error::Error;
use std::fmt;

// A rule of the plan file that a command breaks, with its number, in the order in which they are tested.
#[derive(Clone, Copy, Debug, PartialEq, Eq)]
pub enum Row {
    NotCommand = 12,
    EndsEarly = 11,
    TooSoon = 14,
    Unfinished = 18,
    TooMany = 17,
    OutOfRange = 15,
    NotRising = 16,
    Hyperperiod = 19,
    AfterEnd = 13,
}

impl Row {
    // The number by which the fault is reported.
    pub fn number(self) -> u8
        ensures { result ≡ number_of self }
    {
        self as u8
    }
}

// The file has no byte where one is wanted.
#[derive(Clone, Copy)]
pub(crate) struct CutShort {
    pub(crate) length: usize,
}

// What stands in the file is no whole command.
#[derive(Clone, Copy)]
pub(crate) enum Garbled {
    NotCommand { byte: usize },
    CutShort { length: usize },
}

// Why a file was not read: a broken rule, with the byte that it names, or want of memory.
#[derive(Clone, Copy, Debug, PartialEq, Eq)]
pub enum Fault {
    At { row: Row, byte: usize },
    Memory,
}

impl From<CutShort> for Garbled {
    ghost from_gives = { λ e r. r ≡ garbled e };

    fn from(e: CutShort) -> Garbled {
        Garbled::CutShort { length: e.length }
    }
}

impl From<Garbled> for Fault {
    ghost from_gives = { λ e r. r ≡ raised e };

    fn from(e: Garbled) -> Fault {
        match e {
            Garbled::NotCommand { byte } => Fault::At {
                row: Row::NotCommand,
                byte,
            },
            Garbled::CutShort { length } => Fault::At {
                row: Row::EndsEarly,
                byte: length,
            },
        }
    }
}

impl From<AllocError> for Fault {
    ghost from_gives = { λ _ r. r ≡ Memory };

    fn from(_e: AllocError) -> Fault {
        Fault::Memory
    }
}

impl<T: Drop> From<AllocFailed<T>> for Fault {
    ghost from_gives = { λ _ r. r ≡ Memory };

    fn from(_e: AllocFailed<T>) -> Fault {
        Fault::Memory
    }
}

impl fmt::Display for Fault {
    ghost output = { λ e. Some (fault_text e) };

    fn fmt<W: fmt::Write>(&self, f: &mut fmt::Formatter<W>) -> fmt::Result {
        match self {
            Fault::At { row, byte } => write!(f, "FAULT {} {byte}", row.number()),
            Fault::Memory => f.write_str("no memory for the plan"),
        }
    }
}

impl Error for Fault {}
