// Rows that begin a text file anew (ISO 7185, 6.6.5.2).
ghost use Rattle.std.specs.Prelude.{◌≡◌, None, Some, false, ℕ};
ghost use Rattle.mp_files.specs.TextFiles as text;
ghost use Rattle.mp_machine.specs.Blocks.{Path as Steps};
ghost use Rattle.mp_machine.specs.FileRows as files;
ghost use Rattle.mp_machine.specs.FileStops.{begun_at, begun_number};
ghost use Rattle.mp_machine.specs.Shown.{Agrees, Unmoved, state_of};

use crate::addresses::Address;
use crate::file_queries::stop_of;
use crate::processor::{Processor, Stop};
use mp_base::Memory;
use mp_memory::Cell;

fn is_required(file: Option<u64>) -> bool
    ensures { result ≡ files.is_required file }
{
    match file {
        Some(number) => number < 2,
        None => false,
    }
}

impl Processor {
    fn reset_file(&mut self, number: u64) -> Result<(), Stop>
        requires { files.is_required (Some number) ≡ false }
        ensures row { (paths : ℕ → Steps) → Agrees (begun_number number text.reset (state_of paths self.old)) result (state_of paths self.new) }
        ensures kept { Unmoved self.old self.new }
    {
        if !self.files.has(number) {
            return Err(Stop::Stuck);
        }
        match self.files.reset(number) {
            Ok(()) => Ok(()),
            Err(e) => Err(stop_of(e)),
        }
    }

    fn rewrite_file(&mut self, number: u64) -> Result<(), Stop>
        requires { files.is_required (Some number) ≡ false }
        ensures row { (paths : ℕ → Steps) → Agrees (begun_number number text.rewrite (state_of paths self.old)) result (state_of paths self.new) }
        ensures kept { Unmoved self.old self.new }
    {
        if !self.files.has(number) {
            return Err(Stop::Stuck);
        }
        self.files.rewrite(number);
        Ok(())
    }

    // A file in reading for a file variable that has none.
    fn make_to_read(&mut self, a: Address) -> Result<(), Stop>
        ensures row { (paths : ℕ → Steps) → Agrees (begun_at a None text.reset (state_of paths self.old)) result (state_of paths self.new) }
        ensures kept { Unmoved self.old self.new }
    {
        let number = self.files.len();
        self.set_cell(a, Cell::FileNo(number))?;
        match self.files.make_to_read(self.alloc) {
            Ok(()) => Ok(()),
            Err(Memory) => Err(Stop::Memory),
        }
    }

    // A file in writing for a file variable that has none.
    fn make_to_write(&mut self, a: Address) -> Result<(), Stop>
        ensures row { (paths : ℕ → Steps) → Agrees (begun_at a None text.rewrite (state_of paths self.old)) result (state_of paths self.new) }
        ensures kept { Unmoved self.old self.new }
    {
        let number = self.files.len();
        self.set_cell(a, Cell::FileNo(number))?;
        match self.files.make_to_write(self.alloc) {
            Ok(()) => Ok(()),
            Err(Memory) => Err(Stop::Memory),
        }
    }

    fn begin_reading(&mut self, a: Address, file: Option<u64>) -> Result<(), Stop>
        requires { files.is_required file ≡ false }
        ensures row { (paths : ℕ → Steps) → Agrees (begun_at a file text.reset (state_of paths self.old)) result (state_of paths self.new) }
        ensures kept { Unmoved self.old self.new }
    {
        match file {
            Some(number) => self.reset_file(number),
            None => self.make_to_read(a),
        }
    }

    fn begin_writing(&mut self, a: Address, file: Option<u64>) -> Result<(), Stop>
        requires { files.is_required file ≡ false }
        ensures row { (paths : ℕ → Steps) → Agrees (begun_at a file text.rewrite (state_of paths self.old)) result (state_of paths self.new) }
        ensures kept { Unmoved self.old self.new }
    {
        match file {
            Some(number) => self.rewrite_file(number),
            None => self.make_to_write(a),
        }
    }

    /// Ref : none. The file is in reading from its start; `input` and `output` stay as they are.
    pub(crate) fn reset(&mut self) -> Result<(), Stop>
        ensures row { (paths : ℕ → Steps) → Agrees (files.begin_file text.reset (state_of paths self.old)) result (state_of paths self.new) }
        ensures kept { Unmoved self.old self.new }
    {
        let a = self.take_address()?;
        let file = self.file_number(a)?;
        if is_required(file) {
            return Ok(());
        }
        self.begin_reading(a, file)?;
        self.renew_buffer(a)
    }

    /// Ref : none. The file is empty and in writing; `input` and `output` stay as they are.
    pub(crate) fn rewrite(&mut self) -> Result<(), Stop>
        ensures row { (paths : ℕ → Steps) → Agrees (files.begin_file text.rewrite (state_of paths self.old)) result (state_of paths self.new) }
        ensures kept { Unmoved self.old self.new }
    {
        let a = self.take_address()?;
        let file = self.file_number(a)?;
        if is_required(file) {
            return Ok(());
        }
        self.begin_writing(a, file)?;
        self.renew_buffer(a)
    }
}
