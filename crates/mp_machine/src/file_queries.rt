// What is asked of a text file (ISO 7185, 6.6.6.5), and the rows that only ask.
ghost use Rattle.std.specs.Prelude.{◌≡◌, ℕ};
ghost use Rattle.mp_files.specs.TextFiles as text;
ghost use Rattle.mp_machine.specs.Blocks.{Path as Steps};
ghost use Rattle.mp_machine.specs.FileRows as files;
ghost use Rattle.mp_machine.specs.FileStops.{stop_for};
ghost use Rattle.mp_machine.specs.Shown.{Agrees, NoMemory, Unmoved, state_of};

use crate::addresses::Address;
use crate::processor::{Processor, Stop};
use mp_files::{FileEnd, WRONG_STATE};
use mp_memory::Cell;

pub(crate) fn stop_of(end: FileEnd) -> Stop
    ensures { result ≡ stop_for end }
{
    match end {
        FileEnd::Fault(number) => Stop::Fault(number),
        FileEnd::Limit(which) => Stop::Limit(which),
        FileEnd::Memory => Stop::Memory,
    }
}

impl Processor {
    /// The number of the file of a file variable, None where none was made.
    pub(crate) fn file_number(&self, a: Address) -> Result<Option<u64>, Stop>
        ensures row { (paths : ℕ → Steps) → Agrees (files.file_number a (state_of paths self.now)) result (state_of paths self.now) }
        ensures memory { NoMemory result }
    {
        let x = self.cell_of(a)?;
        match x {
            Cell::Undef => Ok(None),
            Cell::FileNo(number) => Ok(Some(number)),
            _ => Err(Stop::Stuck),
        }
    }

    fn ask_eof(&self, file: Option<u64>) -> Result<bool, Stop>
        ensures row { (paths : ℕ → Steps) → Agrees (files.asked file text.eof (state_of paths self.now)) result (state_of paths self.now) }
    {
        let Some(number) = file else {
            return Err(Stop::Fault(WRONG_STATE));
        };
        if !self.files.has(number) {
            return Err(Stop::Stuck);
        }
        match self.files.get().eof(number) {
            Ok(ends) => Ok(ends),
            Err(e) => Err(stop_of(e)),
        }
    }

    fn ask_eoln(&self, file: Option<u64>) -> Result<bool, Stop>
        ensures row { (paths : ℕ → Steps) → Agrees (files.asked file text.eoln (state_of paths self.now)) result (state_of paths self.now) }
    {
        let Some(number) = file else {
            return Err(Stop::Fault(WRONG_STATE));
        };
        if !self.files.has(number) {
            return Err(Stop::Stuck);
        }
        match self.files.get().eoln(number) {
            Ok(ends) => Ok(ends),
            Err(e) => Err(stop_of(e)),
        }
    }

    fn is_at_end(&self, a: Address) -> Result<bool, Stop>
        ensures row { (paths : ℕ → Steps) → Agrees (files.ask a text.eof (state_of paths self.now)) result (state_of paths self.now) }
    {
        let file = self.file_number(a)?;
        self.ask_eof(file)
    }

    fn is_at_line_end(&self, a: Address) -> Result<bool, Stop>
        ensures row { (paths : ℕ → Steps) → Agrees (files.ask a text.eoln (state_of paths self.now)) result (state_of paths self.now) }
    {
        let file = self.file_number(a)?;
        self.ask_eoln(file)
    }

    /// Ref : 0 or 1. Fault 12 for a closed file.
    pub(crate) fn eof(&mut self) -> Result<(), Stop>
        ensures row { (paths : ℕ → Steps) → Agrees (files.eof (state_of paths self.old)) result (state_of paths self.new) }
        ensures kept { Unmoved self.old self.new }
    {
        let a = self.take_address()?;
        let ends = self.is_at_end(a)?;
        self.put_truth(ends);
        Ok(())
    }

    /// Ref : 0 or 1. Fault 12 for a file that is not in reading, fault 11 at its end.
    pub(crate) fn eoln(&mut self) -> Result<(), Stop>
        ensures row { (paths : ℕ → Steps) → Agrees (files.eoln (state_of paths self.old)) result (state_of paths self.new) }
        ensures kept { Unmoved self.old self.new }
    {
        let a = self.take_address()?;
        let ends = self.is_at_line_end(a)?;
        self.put_truth(ends);
        Ok(())
    }
}
