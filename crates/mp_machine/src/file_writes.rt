// Rows that write to a text file (ISO 7185, 6.6.5.2, 6.9.3 to 6.9.5).
ghost use Rattle.std.specs.Prelude.{◌≡◌, ◌∷◌, [], is_some, map, true, ℕ};
ghost use Rattle.mp_files.specs.declared.items.Item.TheVariants.{Character, LineEnd};
ghost use Rattle.mp_machine.specs.Blocks.{Path as Steps};
ghost use Rattle.mp_machine.specs.FileRows as files;
ghost use Rattle.mp_machine.specs.Shown.{Agrees, NoMemory, Unmoved, state_of};
ghost use Rattle.mp_machine.specs.States.{State};
ghost use Rattle.mp_machine.specs.ValueRows as value;

use crate::addresses::Address;
use crate::cells::defined;
use crate::file_queries::stop_of;
use crate::processor::{Processor, Stop};
use crate::relations::{are_characters, character};
use mp_base::Bytes;
use mp_files::{FileEnd, WRONG_STATE, field_bool, field_chars, field_int};
use mp_memory::Cell;
use std::alloc::Global;

// The characters of a string, none of which is undefined.
fn bytes_of(alloc: Global, cells: &[Cell]) -> Result<Bytes, Stop>
    requires { is_some (value.characters_of cells.now) ≡ true }
    ensures row { (s : State) → Agrees (files.string_in cells.now s) result s }
{
    let mut bytes = match Vec::with_capacity(alloc, cells.len()) {
        Ok(bytes) => bytes,
        Err(_) => return Err(Stop::Memory),
    };
    'cells: for i in 0..cells.len() {
        let n = match character(&cells[i]) {
            Some(n) => n,
            None => return Err(Stop::Fault(9)),
        };
        if n > 255 {
            return Err(Stop::Stuck);
        }
        let Ok(_) = bytes.push(n as u8) else {
            return Err(Stop::Memory);
        };
    }
    Ok(Bytes::from_vec(bytes))
}

impl Processor {
    // The character of a number.
    fn byte_of(&self, n: i64) -> Result<u8, Stop>
        ensures row { (paths : ℕ → Steps) → Agrees (files.as_byte n (state_of paths self.now)) result (state_of paths self.now) }
    {
        if 0 <= n && n <= 255 {
            return Ok(n as u8);
        }
        Err(Stop::Stuck)
    }

    fn integer_field(&self, n: i64, width: i64) -> Result<Bytes, Stop>
        ensures row { (paths : ℕ → Steps) → Agrees (files.integer_field_of n width (state_of paths self.now)) result (state_of paths self.now) }
    {
        match field_int(self.alloc, n, width) {
            Ok(bytes) => Ok(bytes),
            Err(e) => Err(stop_of(e)),
        }
    }

    fn truth_field(&self, n: i64, width: i64) -> Result<Bytes, Stop>
        ensures row { (paths : ℕ → Steps) → Agrees (files.truth_field_of n width (state_of paths self.now)) result (state_of paths self.now) }
    {
        match field_bool(self.alloc, n != 0, width) {
            Ok(bytes) => Ok(bytes),
            Err(e) => Err(stop_of(e)),
        }
    }

    fn character_field(&self, characters: &[u8], width: i64) -> Result<Bytes, Stop>
        ensures row { (paths : ℕ → Steps) → Agrees (files.character_field_of characters.now width (state_of paths self.now)) result (state_of paths self.now) }
    {
        match field_chars(self.alloc, characters, width) {
            Ok(bytes) => Ok(bytes),
            Err(e) => Err(stop_of(e)),
        }
    }

    // The characters of a string. Fault 9 where one is undefined.
    fn string_of(&self, cells: &[Cell]) -> Result<Bytes, Stop>
        ensures row { (paths : ℕ → Steps) → Agrees (files.string_in cells.now (state_of paths self.now)) result (state_of paths self.now) }
    {
        if !are_characters(cells) {
            return Err(Stop::Fault(9));
        }
        bytes_of(self.alloc, cells)
    }

    // Whether the file of the number is in writing.
    fn ask_to_write(&mut self, file: Option<u64>) -> Result<(), Stop>
        ensures row { (paths : ℕ → Steps) → Agrees (files.must_write_on file (state_of paths self.old)) result (state_of paths self.new) }
        ensures kept { Unmoved self.old self.new }
    {
        let Some(number) = file else {
            return Err(Stop::Fault(WRONG_STATE));
        };
        if !self.files.has(number) {
            return Err(Stop::Stuck);
        }
        // To write no bytes asks for the state, which comes before all else that refuses them.
        match self.files.write(number, &[]) {
            Ok(()) => Ok(()),
            Err(FileEnd::Fault(fault)) => Err(Stop::Fault(fault)),
            Err(FileEnd::Limit(_)) => Ok(()),
            Err(FileEnd::Memory) => Ok(()),
        }
    }

    // Whether the file is in writing.
    fn must_write(&mut self, a: Address) -> Result<(), Stop>
        ensures row { (paths : ℕ → Steps) → Agrees (files.must_write a (state_of paths self.old)) result (state_of paths self.new) }
        ensures kept { Unmoved self.old self.new }
    {
        let file = self.file_number(a)?;
        self.ask_to_write(file)
    }

    fn write_to_number(&mut self, file: Option<u64>, bytes: &[u8]) -> Result<(), Stop>
        ensures row { (paths : ℕ → Steps) → Agrees (files.write_on file (map Character bytes.now) (state_of paths self.old)) result (state_of paths self.new) }
        ensures kept { Unmoved self.old self.new }
    {
        let Some(number) = file else {
            return Err(Stop::Fault(WRONG_STATE));
        };
        if !self.files.has(number) {
            return Err(Stop::Stuck);
        }
        match self.files.write(number, bytes) {
            Ok(()) => Ok(()),
            Err(e) => Err(stop_of(e)),
        }
    }

    fn end_line_of_number(&mut self, file: Option<u64>) -> Result<(), Stop>
        ensures row { (paths : ℕ → Steps) → Agrees (files.write_on file (LineEnd ∷ []) (state_of paths self.old)) result (state_of paths self.new) }
        ensures kept { Unmoved self.old self.new }
    {
        let Some(number) = file else {
            return Err(Stop::Fault(WRONG_STATE));
        };
        if !self.files.has(number) {
            return Err(Stop::Stuck);
        }
        match self.files.write_line(number) {
            Ok(()) => Ok(()),
            Err(e) => Err(stop_of(e)),
        }
    }

    fn page_of_number(&mut self, file: Option<u64>) -> Result<(), Stop>
        ensures row { (paths : ℕ → Steps) → Agrees (files.page_on file (state_of paths self.old)) result (state_of paths self.new) }
        ensures kept { Unmoved self.old self.new }
    {
        let Some(number) = file else {
            return Err(Stop::Fault(WRONG_STATE));
        };
        if !self.files.has(number) {
            return Err(Stop::Stuck);
        }
        match self.files.page(number) {
            Ok(()) => Ok(()),
            Err(e) => Err(stop_of(e)),
        }
    }

    // Writes these characters. Fault 12 for a file that is not in writing comes before limit 4 on the bytes written.
    fn write_bytes(&mut self, a: Address, bytes: &[u8]) -> Result<(), Stop>
        ensures row { (paths : ℕ → Steps) → Agrees (files.write_bytes a bytes.now (state_of paths self.old)) result (state_of paths self.new) }
        ensures kept { Unmoved self.old self.new }
    {
        let file = self.file_number(a)?;
        self.write_to_number(file, bytes)
    }

    fn end_line(&mut self, a: Address) -> Result<(), Stop>
        ensures row { (paths : ℕ → Steps) → Agrees (files.write_to a (LineEnd ∷ []) (state_of paths self.old)) result (state_of paths self.new) }
        ensures kept { Unmoved self.old self.new }
    {
        let file = self.file_number(a)?;
        self.end_line_of_number(file)
    }

    fn page_at(&mut self, a: Address) -> Result<(), Stop>
        ensures row { (paths : ℕ → Steps) → Agrees (files.page_at a (state_of paths self.old)) result (state_of paths self.new) }
        ensures kept { Unmoved self.old self.new }
    {
        let file = self.file_number(a)?;
        self.page_of_number(file)
    }

    /// Ref : none. Ends the line.
    pub(crate) fn write_line(&mut self) -> Result<(), Stop>
        ensures row { (paths : ℕ → Steps) → Agrees (files.write_line (state_of paths self.old)) result (state_of paths self.new) }
        ensures kept { Unmoved self.old self.new }
    {
        let a = self.take_address()?;
        self.end_line(a)
    }

    /// Ref : none. Ends an unfinished line, and begins a page.
    pub(crate) fn page(&mut self) -> Result<(), Stop>
        ensures row { (paths : ℕ → Steps) → Agrees (files.page (state_of paths self.old)) result (state_of paths self.new) }
        ensures kept { Unmoved self.old self.new }
    {
        let a = self.take_address()?;
        self.page_at(a)
    }

    fn buffered_byte(&self, a: Address) -> Result<u8, Stop>
        ensures row { (paths : ℕ → Steps) → Agrees (files.buffered_byte a (state_of paths self.now)) result (state_of paths self.now) }
    {
        let buffer = self.reach(a, 1)?;
        let x = self.cell_of(buffer)?;
        match defined(x)? {
            Cell::Int(n) => self.byte_of(n),
            _ => Err(Stop::Stuck),
        }
    }

    /// Ref : none. Writes the buffer variable, which is set anew. Fault 12 for a file that is not in writing comes before
    /// fault 9 for an undefined buffer, and this before limit 4.
    pub(crate) fn put_buffer(&mut self) -> Result<(), Stop>
        ensures row { (paths : ℕ → Steps) → Agrees (files.put_file (state_of paths self.old)) result (state_of paths self.new) }
        ensures kept { Unmoved self.old self.new }
    {
        let a = self.take_address()?;
        self.must_write(a)?;
        let byte = self.buffered_byte(a)?;
        self.write_bytes(a, &[byte])?;
        self.renew_buffer(a)
    }

    fn write_integer_to(&mut self, a: Address, n: i64, width: i64) -> Result<(), Stop>
        ensures row { (paths : ℕ → Steps) → Agrees (files.write_integer_to a n width (state_of paths self.old)) result (state_of paths self.new) }
        ensures kept { Unmoved self.old self.new }
    {
        let field = self.integer_field(n, width)?;
        self.write_bytes(a, field.get())
    }

    fn write_truth_to(&mut self, a: Address, n: i64, width: i64) -> Result<(), Stop>
        ensures row { (paths : ℕ → Steps) → Agrees (files.write_truth_to a n width (state_of paths self.old)) result (state_of paths self.new) }
        ensures kept { Unmoved self.old self.new }
    {
        let field = self.truth_field(n, width)?;
        self.write_bytes(a, field.get())
    }

    fn write_characters_to(&mut self, a: Address, characters: &[u8], width: i64) -> Result<(), Stop>
        ensures row { (paths : ℕ → Steps) → Agrees (files.write_characters_to a characters.now width (state_of paths self.old)) result (state_of paths self.new) }
        ensures kept { Unmoved self.old self.new }
    {
        let field = self.character_field(characters, width)?;
        self.write_bytes(a, field.get())
    }

    fn write_character_to(&mut self, a: Address, n: i64, width: i64) -> Result<(), Stop>
        ensures row { (paths : ℕ → Steps) → Agrees (files.write_character_to a n width (state_of paths self.old)) result (state_of paths self.new) }
        ensures kept { Unmoved self.old self.new }
    {
        let byte = self.byte_of(n)?;
        self.write_characters_to(a, &[byte], width)
    }

    fn write_string_to(&mut self, a: Address, cells: &[Cell], width: i64) -> Result<(), Stop>
        ensures row { (paths : ℕ → Steps) → Agrees (files.write_string_to a cells.now width (state_of paths self.old)) result (state_of paths self.new) }
        ensures kept { Unmoved self.old self.new }
    {
        let string = self.string_of(cells)?;
        self.write_characters_to(a, string.get(), width)
    }

    /// Ref i width : none. Writes an integer. Fault 14 and limit 3 for its width come before all that concerns the file.
    pub(crate) fn write_integer(&mut self) -> Result<(), Stop>
        ensures row { (paths : ℕ → Steps) → Agrees (files.write_number files.write_integer_to (state_of paths self.old)) result (state_of paths self.new) }
        ensures kept { Unmoved self.old self.new }
    {
        let width = self.take_number()?;
        let n = self.take_number()?;
        let a = self.take_address()?;
        self.write_integer_to(a, n, width)
    }

    /// Ref i width : none. Writes a Boolean value.
    pub(crate) fn write_truth(&mut self) -> Result<(), Stop>
        ensures row { (paths : ℕ → Steps) → Agrees (files.write_number files.write_truth_to (state_of paths self.old)) result (state_of paths self.new) }
        ensures kept { Unmoved self.old self.new }
    {
        let width = self.take_number()?;
        let n = self.take_number()?;
        let a = self.take_address()?;
        self.write_truth_to(a, n, width)
    }

    /// Ref i width : none. Writes a character.
    pub(crate) fn write_character(&mut self) -> Result<(), Stop>
        ensures row { (paths : ℕ → Steps) → Agrees (files.write_number files.write_character_to (state_of paths self.old)) result (state_of paths self.new) }
        ensures kept { Unmoved self.old self.new }
    {
        let width = self.take_number()?;
        let n = self.take_number()?;
        let a = self.take_address()?;
        self.write_character_to(a, n, width)
    }

    /// Ref block width : none. Writes a string. Fault 9 for an undefined character.
    pub(crate) fn write_characters(&mut self) -> Result<(), Stop>
        ensures row { (paths : ℕ → Steps) → Agrees (files.write_string (state_of paths self.old)) result (state_of paths self.new) }
        ensures kept { Unmoved self.old self.new }
    {
        let width = self.take_number()?;
        let cells = self.take_block()?;
        let a = self.take_address()?;
        self.write_string_to(a, cells.get(), width)
    }
}
