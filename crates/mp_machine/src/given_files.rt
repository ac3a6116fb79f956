ghost use Rattle.std.specs.Prelude.{◌≡◌, ◌≤◌, ◌∷◌, ◌++◌, [], IfErr, IfOk, OnErr, OnOk, None, Some, false, length, nat_lt};
ghost use Rattle.mp_files.specs.declared.items.Item.TheVariants.{LineEnd};
ghost use Rattle.mp_files.specs.Items.{characters};
ghost use Rattle.mp_files.specs.RunFiles.{IsDue, IsGiven, after_writing, fault_of, file_at, is_required, starting, with_file, write_refusal};
ghost use Rattle.mp_files.specs.TextFiles as text;
ghost use Rattle.mp_files.specs.TextFiles.{Gives, closed_file, page_items};

use mp_base::Memory;
use mp_files::{FileEnd, Files};
use std::alloc::Global;
use std::marker::Model;

/// The text files of a run, which know how many they are. To a contract they are the files and the bytes written to them.
#[derive(Drop)]
pub(crate) struct GivenFiles {
    files: Files,
    count: u64,
}

impl Model for GivenFiles {
    ghost use Rattle.std.specs.Prelude.{◌≡◌, ◌≤◌, length};
    ghost use Rattle.mp_files.specs.RunFiles.{RunFiles};

    ghost Value = { RunFiles };

    ghost view = { λ given. given.files };

    ghost invariant = { λ given. (given.count ≡ length given.files.files) × (2 ≤ given.count) };
}

impl GivenFiles {
    /// The files as a run begins.
    pub fn new(alloc: Global, input: &[u8]) -> Result<GivenFiles, Memory>
        ensures { IfOk result (λ run. run ≡ starting input.now) }
    {
        Ok(GivenFiles {
            files: Files::new(alloc, input)?,
            count: 2,
        })
    }

    /// Whether a file of this number was made.
    pub fn has(&self, number: u64) -> bool
        ensures { result ≡ nat_lt number (length self.now.files) }
    {
        number < self.count
    }

    /// The files themselves.
    pub fn get(&self) -> &Files
        ensures { result.now ≡ self.now }
    {
        &self.files
    }

    /// Goes past the item at the position.
    pub fn get_next(&mut self, number: u64) -> Result<(), FileEnd>
        requires { IsGiven self.old number }
        ensures moved { OnOk result (text.get (file_at self.old number) ≡ Gives tt (file_at self.new number)) }
        ensures fault { IfErr result (λ e. fault_of (text.get (file_at self.old number)) ≡ Some e) }
        ensures others { self.new ≡ with_file number (file_at self.new number) self.old }
        ensures unchanged { OnErr result (self.new ≡ self.old) }
    {
        self.files.get(number)
    }

    /// Goes past the next line end, or to the end of the file.
    pub fn read_line(&mut self, number: u64) -> Result<(), FileEnd>
        requires { IsGiven self.old number }
        ensures moved { OnOk result (text.read_line (file_at self.old number) ≡ Gives tt (file_at self.new number)) }
        ensures fault { IfErr result (λ e. fault_of (text.read_line (file_at self.old number)) ≡ Some e) }
        ensures others { self.new ≡ with_file number (file_at self.new number) self.old }
        ensures unchanged { OnErr result (self.new ≡ self.old) }
    {
        self.files.read_line(number)
    }

    /// Reads an integer.
    pub fn read_int(&mut self, number: u64) -> Result<i64, FileEnd>
        requires { IsGiven self.old number }
        ensures number { IfOk result (λ n. text.read_number (file_at self.old number) ≡ Gives n (file_at self.new number)) }
        ensures fault { IfErr result (λ e. fault_of (text.read_number (file_at self.old number)) ≡ Some e) }
        ensures others { self.new ≡ with_file number (file_at self.new number) self.old }
        ensures unchanged { OnErr result (self.new ≡ self.old) }
    {
        self.files.read_int(number)
    }

    /// Writes characters at the end of the file; to write none asks whether it is in writing.
    pub fn write(&mut self, number: u64, bytes: &[u8]) -> Result<(), FileEnd>
        requires { IsGiven self.old number }
        ensures room { OnOk result (write_refusal number (length bytes.now) self.old ≡ None) }
        ensures written { OnOk result (self.new ≡ after_writing number (characters bytes.now) self.old) }
        ensures refused { IfErr result (λ e. IsDue e (write_refusal number (length bytes.now) self.old)) }
        ensures unchanged { OnErr result (self.new ≡ self.old) }
    {
        self.files.write(number, bytes)
    }

    /// Ends the line.
    pub fn write_line(&mut self, number: u64) -> Result<(), FileEnd>
        requires { IsGiven self.old number }
        ensures room { OnOk result (write_refusal number 1 self.old ≡ None) }
        ensures written { OnOk result (self.new ≡ after_writing number (LineEnd ∷ []) self.old) }
        ensures refused { IfErr result (λ e. IsDue e (write_refusal number 1 self.old)) }
        ensures unchanged { OnErr result (self.new ≡ self.old) }
    {
        self.files.write_line(number)
    }

    /// Ends an unfinished line and writes the character with the number 12.
    pub fn page(&mut self, number: u64) -> Result<(), FileEnd>
        requires { IsGiven self.old number }
        ensures room { OnOk result (write_refusal number (length (page_items (file_at self.old number))) self.old ≡ None) }
        ensures written { OnOk result (self.new ≡ after_writing number (page_items (file_at self.old number)) self.old) }
        ensures refused { IfErr result (λ e. IsDue e (write_refusal number (length (page_items (file_at self.old number))) self.old)) }
        ensures unchanged { OnErr result (self.new ≡ self.old) }
    {
        self.files.page(number)
    }

    /// Puts a file that is neither `input` nor `output` in reading from its start, its last line ended.
    pub fn reset(&mut self, number: u64) -> Result<(), FileEnd>
        requires given { IsGiven self.old number }
        requires own { is_required number ≡ false }
        ensures begun { OnOk result (self.new ≡ with_file number (text.reset (file_at self.old number)) self.old) }
        ensures memory { IfErr result (λ e. e ≡ FileEnd.Memory) }
    {
        self.files.reset(number)
    }

    /// Empties a file that is neither `input` nor `output`, and puts it in writing.
    pub fn rewrite(&mut self, number: u64)
        requires given { IsGiven self.old number }
        requires own { is_required number ≡ false }
        ensures { self.new ≡ with_file number (text.rewrite (file_at self.old number)) self.old }
    {
        let _ = self.files.rewrite(number);
    }

    /// How many files there are: the number of the next one.
    pub fn len(&self) -> u64
        ensures number { result ≡ length self.now.files }
        ensures required { 2 ≤ result }
    {
        self.count
    }

    /// One file more, in reading, with nothing in it.
    pub fn make_to_read(&mut self, alloc: Global) -> Result<(), Memory>
        ensures { OnOk result (self.new ≡ record { files = self.old.files ++ text.reset closed_file ∷ []; written = self.old.written }) }
    {
        let Some(count) = self.count.checked_add(1) else {
            return Err(Memory);
        };
        let number = self.files.make(alloc)?;
        self.count = count;
        match self.files.reset(number) {
            Ok(()) => {}
            Err(_) => return Err(Memory),
        }
        Ok(())
    }

    /// One file more, in writing, with nothing in it.
    pub fn make_to_write(&mut self, alloc: Global) -> Result<(), Memory>
        ensures { OnOk result (self.new ≡ record { files = self.old.files ++ text.rewrite closed_file ∷ []; written = self.old.written }) }
    {
        let Some(count) = self.count.checked_add(1) else {
            return Err(Memory);
        };
        let number = self.files.make(alloc)?;
        self.count = count;
        let _ = self.files.rewrite(number);
        Ok(())
    }
}
