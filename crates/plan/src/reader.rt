// A reader over the bytes of a plan file.
ghost use Rattle.std.specs.Prelude.{◌≡◌, slice_index};
ghost use Rattle.plan.specs.File.{part, task_operands, word};
ghost use Rattle.plan.specs.Readers.{bytes, said, Took, Commanded};

use crate::commands::{Command, Placed};
use crate::faults::{CutShort, Garbled};

// A slice and a place in it, not the rest of the slice alone: faults tell the place.
#[derive(Drop)]
pub(crate) struct Reader<'a> {
    pub(crate) file: &'a [u8],
    pub(crate) place: usize,
}

impl Reader<'_> {
    // The next N bytes.
    fn take<const N: usize>(&mut self) -> Result<[u8; N], CutShort>
        ensures { Took N (λ x. x ≡ part (bytes self.old) self.old.place N) self.old result self.new }
    {
        let cut_short = CutShort {
            length: self.file.len(),
        };
        let rest = self.file.get(self.place..).ok_or(cut_short)?;
        let next = rest.first_chunk().ok_or(cut_short)?;
        self.place += N;
        Ok(*next)
    }

    fn byte(&mut self) -> Result<u8, CutShort>
        ensures { Took 1 (λ x. x ≡ slice_index (bytes self.old) self.old.place) self.old result self.new }
    {
        let [b] = self.take::<1>()?;
        Ok(b)
    }

    // Two bytes, the high one first.
    fn word(&mut self) -> Result<u16, CutShort>
        ensures { Took 2 (λ x. x ≡ word (bytes self.old) self.old.place) self.old result self.new }
    {
        self.take().map(u16::from_be_bytes)
    }

    // The operands of a task.
    fn task(&mut self) -> Result<Command, CutShort>
        ensures { Took 9 (λ x. said x ≡ task_operands (bytes self.old) self.old.place) self.old result self.new }
    {
        Ok(Command::Task {
            name: self.take()?,
            execution: self.word()?,
            deadline: self.word()?,
            priority: self.byte()?,
        })
    }

    // The command that stands at the reader's place, with that place.
    pub(crate) fn command(&mut self) -> Result<Placed, Garbled>
        ensures { Commanded self.old result self.new }
    {
        let place = self.place;
        let command = match self.byte()? {
            b'T' => Command::Table {
                duration: self.word()?,
            },
            b'P' => Command::Point {
                position: self.word()?,
            },
            b'D' => Command::Delay {
                ticks: self.word()?,
            },
            b'J' => self.task()?,
            b'E' => Command::End,
            _ => return Err(Garbled::NotCommand { byte: place }),
        };
        Ok(Placed { command, place })
    }
}
