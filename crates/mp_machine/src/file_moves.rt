// Rows that move the position of a text file (ISO 7185, 6.6.5.2, 6.9.2).
ghost use Rattle.std.specs.Prelude.{◌≡◌, ℕ};
ghost use Rattle.mp_files.specs.TextFiles as text;
ghost use Rattle.mp_files.specs.TextFiles.{Gives, shown};
ghost use Rattle.mp_machine.specs.Blocks.{Path as Steps};
ghost use Rattle.mp_machine.specs.FileRows as files;
ghost use Rattle.mp_machine.specs.Shown.{Agrees, Fits, Unmoved, state_of};

use crate::addresses::Address;
use crate::cells::defined;
use crate::file_queries::stop_of;
use crate::machine::buffer_cell;
use crate::processor::{Processor, Stop};
use mp_files::WRONG_STATE;

impl Processor {
    fn get_next(&mut self, file: Option<u64>) -> Result<(), Stop>
        ensures row { (paths : ℕ → Steps) → Agrees (files.on_number file text.get (state_of paths self.old)) result (state_of paths self.new) }
        ensures kept { Unmoved self.old self.new }
        ensures room { (n : ℕ) → Fits n self.old → Fits n self.new }
    {
        let Some(number) = file else {
            return Err(Stop::Fault(WRONG_STATE));
        };
        if !self.files.has(number) {
            return Err(Stop::Stuck);
        }
        match self.files.get_next(number) {
            Ok(()) => Ok(()),
            Err(e) => Err(stop_of(e)),
        }
    }

    fn pass_line(&mut self, file: Option<u64>) -> Result<(), Stop>
        ensures row { (paths : ℕ → Steps) → Agrees (files.on_number file text.read_line (state_of paths self.old)) result (state_of paths self.new) }
        ensures kept { Unmoved self.old self.new }
        ensures room { (n : ℕ) → Fits n self.old → Fits n self.new }
    {
        let Some(number) = file else {
            return Err(Stop::Fault(WRONG_STATE));
        };
        if !self.files.has(number) {
            return Err(Stop::Stuck);
        }
        match self.files.read_line(number) {
            Ok(()) => Ok(()),
            Err(e) => Err(stop_of(e)),
        }
    }

    fn get_next_at(&mut self, a: Address) -> Result<(), Stop>
        ensures row { (paths : ℕ → Steps) → Agrees (files.on_file a text.get (state_of paths self.old)) result (state_of paths self.new) }
        ensures kept { Unmoved self.old self.new }
        ensures room { (n : ℕ) → Fits n self.old → Fits n self.new }
    {
        let file = self.file_number(a)?;
        self.get_next(file)
    }

    fn pass_line_at(&mut self, a: Address) -> Result<(), Stop>
        ensures row { (paths : ℕ → Steps) → Agrees (files.on_file a text.read_line (state_of paths self.old)) result (state_of paths self.new) }
        ensures kept { Unmoved self.old self.new }
        ensures room { (n : ℕ) → Fits n self.old → Fits n self.new }
    {
        let file = self.file_number(a)?;
        self.pass_line(file)
    }

    // What the buffer variable becomes where it is set anew.
    fn shown(&self, file: Option<u64>) -> Result<Option<u8>, Stop>
        ensures row { (paths : ℕ → Steps) → Agrees (files.asked file (λ f. Gives (shown f) f) (state_of paths self.now)) result (state_of paths self.now) }
    {
        let Some(number) = file else {
            return Ok(None);
        };
        if !self.files.has(number) {
            return Err(Stop::Stuck);
        }
        Ok(self.files.get().shown(number))
    }

    fn shown_at(&self, a: Address) -> Result<Option<u8>, Stop>
        ensures row { (paths : ℕ → Steps) → Agrees (files.ask a (λ f. Gives (shown f) f) (state_of paths self.now)) result (state_of paths self.now) }
    {
        let file = self.file_number(a)?;
        self.shown(file)
    }

    /// The buffer variable is set anew.
    pub(crate) fn renew_buffer(&mut self, a: Address) -> Result<(), Stop>
        ensures row { (paths : ℕ → Steps) → Agrees (files.renew_buffer a (state_of paths self.old)) result (state_of paths self.new) }
        ensures kept { Unmoved self.old self.new }
        ensures room { (n : ℕ) → Fits n self.old → Fits n self.new }
    {
        let shown = self.shown_at(a)?;
        let buffer = self.reach(a, 1)?;
        self.set_cell(buffer, buffer_cell(shown))
    }

    fn get_at(&mut self, a: Address) -> Result<(), Stop>
        ensures row { (paths : ℕ → Steps) → Agrees (files.get_at a (state_of paths self.old)) result (state_of paths self.new) }
        ensures kept { Unmoved self.old self.new }
        ensures room { (n : ℕ) → Fits n self.old → Fits n self.new }
    {
        self.get_next_at(a)?;
        self.renew_buffer(a)
    }

    fn next_number(&mut self, file: Option<u64>) -> Result<i64, Stop>
        ensures row { (paths : ℕ → Steps) → Agrees (files.on_number file text.read_number (state_of paths self.old)) result (state_of paths self.new) }
        ensures kept { Unmoved self.old self.new }
        ensures room { (n : ℕ) → Fits n self.old → Fits n self.new }
    {
        let Some(number) = file else {
            return Err(Stop::Fault(WRONG_STATE));
        };
        if !self.files.has(number) {
            return Err(Stop::Stuck);
        }
        match self.files.read_int(number) {
            Ok(n) => Ok(n),
            Err(e) => Err(stop_of(e)),
        }
    }

    fn next_number_at(&mut self, a: Address) -> Result<i64, Stop>
        ensures row { (paths : ℕ → Steps) → Agrees (files.on_file a text.read_number (state_of paths self.old)) result (state_of paths self.new) }
        ensures kept { Unmoved self.old self.new }
        ensures room { (n : ℕ) → Fits n self.old → Fits n self.new }
    {
        let file = self.file_number(a)?;
        self.next_number(file)
    }

    /// Ref : none. Goes past the item at the position.
    pub(crate) fn get(&mut self) -> Result<(), Stop>
        ensures row { (paths : ℕ → Steps) → Agrees (files.get (state_of paths self.old)) result (state_of paths self.new) }
        ensures kept { Unmoved self.old self.new }
    {
        let a = self.take_address()?;
        self.get_at(a)
    }

    /// Ref : none. Goes past the next line end.
    pub(crate) fn read_line(&mut self) -> Result<(), Stop>
        ensures row { (paths : ℕ → Steps) → Agrees (files.read_line (state_of paths self.old)) result (state_of paths self.new) }
        ensures kept { Unmoved self.old self.new }
    {
        let a = self.take_address()?;
        self.pass_line_at(a)?;
        self.renew_buffer(a)
    }

    /// Ref : number. Reads an integer. Fault 12 for a file that is not in reading, fault 11 where nothing stands behind the
    /// spaces, fault 13 where there are no digits, fault 1 for a number that is no integer.
    pub(crate) fn read_int(&mut self) -> Result<(), Stop>
        ensures row { (paths : ℕ → Steps) → Agrees (files.read_int (state_of paths self.old)) result (state_of paths self.new) }
        ensures kept { Unmoved self.old self.new }
    {
        let a = self.take_address()?;
        let n = self.next_number_at(a)?;
        self.renew_buffer(a)?;
        self.put_number(n);
        Ok(())
    }

    fn ask_to_read(&self, file: Option<u64>) -> Result<(), Stop>
        ensures row { (paths : ℕ → Steps) → Agrees (files.must_read_on file (state_of paths self.now)) result (state_of paths self.now) }
    {
        let Some(number) = file else {
            return Err(Stop::Fault(WRONG_STATE));
        };
        if !self.files.has(number) {
            return Err(Stop::Stuck);
        }
        match self.files.get().eoln(number) {
            Ok(_) => Ok(()),
            Err(e) => Err(stop_of(e)),
        }
    }

    // Whether an item stands at the position of the file.
    fn must_read(&self, a: Address) -> Result<(), Stop>
        ensures row { (paths : ℕ → Steps) → Agrees (files.must_read a (state_of paths self.now)) result (state_of paths self.now) }
    {
        let file = self.file_number(a)?;
        self.ask_to_read(file)
    }

    /// Ref : number. The character in the buffer variable, and then `get`. Fault 12 for a file that is not in reading and
    /// fault 11 at its end come before fault 9 for an undefined buffer.
    pub(crate) fn read_char(&mut self) -> Result<(), Stop>
        ensures row { (paths : ℕ → Steps) → Agrees (files.read_char (state_of paths self.old)) result (state_of paths self.new) }
        ensures kept { Unmoved self.old self.new }
    {
        let a = self.take_address()?;
        self.must_read(a)?;
        let buffer = self.reach(a, 1)?;
        let x = self.cell_of(buffer)?;
        let y = defined(x)?;
        self.get_at(a)?;
        self.put_cell(y);
        Ok(())
    }
}
