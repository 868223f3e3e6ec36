// Reading a plan file into a plan.
ghost use Rattle.std.specs.Prelude.{◌≡◌};
ghost use Rattle.plan.specs.Drafts.{drafted, Stepped, Filled, Read};
ghost use Rattle.plan.specs.Entries.{blank};
ghost use Rattle.plan.specs.File.{meaning};
ghost use Rattle.plan.specs.Laws.{Told};
ghost use Rattle.plan.specs.Plans.{content};

use crate::commands::Command;
use crate::drafts::Draft;
use crate::faults::{Fault, Row};
use crate::model::Plan;
use crate::reader::Reader;
use std::alloc::Global;

impl Draft {
    // Takes the next command; false at the end of the file. No value stands beside it, so it is a bool.
    fn take_command(&mut self, reader: &mut Reader) -> Result<bool, Fault>
        ensures { Stepped (drafted self.old) reader.old result self.new reader.new }
    {
        let placed = reader.command()?;
        self.add(&placed)?;
        if !matches!(placed.command, Command::End) {
            return Ok(true);
        }
        if reader.place < reader.file.len() {
            return Err(Fault::At {
                row: Row::AfterEnd,
                byte: reader.place,
            });
        }
        Ok(false)
    }

    // Takes the commands of the whole file.
    fn take_file(&mut self, file: &[u8]) -> Result<(), Fault>
        requires { drafted self.old ≡ blank }
        ensures { Filled (meaning file.now) result self.new }
    {
        let mut reader = Reader { file, place: 0 };
        while self.take_command(&mut reader)? {}
        Ok(())
    }
}

impl Plan {
    // Reads a plan file. The plan becomes what the file sets down; a fault leaves it as it was.
    pub fn read(&mut self, heap: Global, file: &[u8]) -> Result<(), Fault>
        ensures defined { Read (meaning file.now) (content self.old) result (content self.new) }
        ensures law { Told file.now result (content self.new) }
    {
        let mut draft = Draft::new(heap);
        draft.take_file(file)?;
        *self = draft.finish();
        Ok(())
    }
}
