ghost use Rattle.std.specs.Prelude.{◌≡◌, ◌∷◌, ◌++◌, [], IfOk, IfErr, IsTrue, OnOk, OnErr, Some, None, false, length};
ghost use Rattle.mp_files.specs.declared.items.Item.TheVariants.{Character, LineEnd};
ghost use Rattle.mp_files.specs.Items.{bytes_of, characters, items_of};
ghost use Rattle.mp_files.specs.TextFiles.{Gives, contents, eof, eoln, get, is_unfinished, page_items, read_line, read_number, shown};
ghost use Rattle.mp_files.specs.RunFiles.{IsDue, IsGiven, after_reset, after_rewrite, after_writing, fault_of, file_at, is_required, starting, with_file, with_new_file, write_refusal};

use crate::causes::{FILE_BYTES, FileEnd, WRONG_STATE};
use crate::stored_file::StoredFile;
use mp_base::{Memory, OUTPUT_LIMIT};
use std::alloc::Global;
use std::marker::Model;

/// The text files of a run, by number. File 0 is `input`, file 1 is `output`, and each further one begins closed and
/// empty. Contracts see the list of the files, each as its characters and line ends before and behind its position with
/// its state, and the number of bytes written to all of them.
#[derive(Drop)]
pub struct Files {
    files: Vec<StoredFile>,
    written: usize,
}

impl Model for Files {
    ghost use Rattle.std.specs.Prelude.{◌≤◌, length};
    ghost use Rattle.mp_base.specs.declared.limits.TheConstants.{OUTPUT_LIMIT};
    ghost use Rattle.mp_files.specs.RunFiles.{RunFiles};

    ghost Value = { RunFiles };

    ghost view = { λ run. record { files = run.files.items; written = run.written } };

    ghost invariant = { λ run. (2 ≤ length run.files.items) × (run.written ≤ OUTPUT_LIMIT) };
}

impl Files {
    /// The files as a run begins: `input` of these bytes in reading, `output` in writing.
    pub fn new(alloc: Global, input: &[u8]) -> Result<Files, Memory>
        ensures { IfOk result (λ run. run ≡ starting input.now) }
    {
        let mut files = Vec::with_capacity(alloc, 2)?;
        files.push(StoredFile::input(alloc, input)?)?;
        files.push(StoredFile::output(alloc))?;
        Ok(Files { files, written: 0 })
    }

    /// Makes a file, closed and empty, and gives its number.
    pub fn make(&mut self, alloc: Global) -> Result<u64, Memory>
        ensures number { IfOk result (λ number. number ≡ length self.old.files) }
        ensures made { OnOk result (self.new ≡ with_new_file self.old) }
        ensures unchanged { OnErr result (self.new ≡ self.old) }
    {
        let number = self.files.len() as u64;
        self.files.push(StoredFile::closed(alloc))?;
        Ok(number)
    }

    /// Whether nothing is left to read; true in writing (ISO 7185, 6.6.6.5). Fault 12 exactly where the file is closed.
    pub fn eof(&self, number: u64) -> Result<bool, FileEnd>
        requires { IsGiven self.now number }
        ensures value { IfOk result (λ ends. eof (file_at self.now number) ≡ Gives ends (file_at self.now number)) }
        ensures fault { IfErr result (λ e. fault_of (eof (file_at self.now number)) ≡ Some e) }
    {
        self.files[number as usize].eof()
    }

    /// Whether a line end stands at the position (ISO 7185, 6.6.6.5). Fault 12 exactly where the file is not in reading,
    /// and else fault 11 exactly where it is at its end.
    pub fn eoln(&self, number: u64) -> Result<bool, FileEnd>
        requires { IsGiven self.now number }
        ensures value { IfOk result (λ ends. eoln (file_at self.now number) ≡ Gives ends (file_at self.now number)) }
        ensures fault { IfErr result (λ e. fault_of (eoln (file_at self.now number)) ≡ Some e) }
    {
        self.files[number as usize].eoln()
    }

    /// What the buffer variable becomes where it is set anew: the character at the position, a space at a line end, and
    /// None exactly where the file is not in reading or is at its end.
    pub fn shown(&self, number: u64) -> Option<u8>
        requires { IsGiven self.now number }
        ensures { result ≡ shown (file_at self.now number) }
    {
        self.files[number as usize].shown()
    }

    /// The bytes that were written to `output`, a line end as byte 10.
    pub fn output(&self) -> &[u8]
        ensures { result.now ≡ bytes_of (contents (file_at self.now 1)) }
    {
        self.files[1].bytes()
    }

    /// Puts the file in reading from its start, its last line ended (ISO 7185, 6.6.5.2); `input` and `output` stay as
    /// they are. It takes memory only to end the last line of another file, where that has no line end.
    pub fn reset(&mut self, number: u64) -> Result<(), FileEnd>
        requires { IsGiven self.old number }
        ensures ok { OnOk result (self.new ≡ after_reset number self.old) }
        ensures memory { IfErr result (λ e. e ≡ FileEnd.Memory) }
        ensures required { OnErr result (is_required number ≡ false) }
        ensures unfinished { OnErr result (IsTrue (is_unfinished (contents (file_at self.old number)))) }
        ensures unchanged { OnErr result (self.new ≡ self.old) }
    {
        if number < 2 {
            return Ok(());
        }
        match self.files[number as usize].reset() {
            Ok(()) => Ok(()),
            Err(Memory) => Err(FileEnd::Memory),
        }
    }

    /// Empties the file and puts it in writing (ISO 7185, 6.6.5.2); `input` and `output` stay as they are. It never
    /// fails.
    pub fn rewrite(&mut self, number: u64) -> Result<(), FileEnd>
        requires { IsGiven self.old number }
        ensures ok { result ≡ Ok tt }
        ensures begun { self.new ≡ after_rewrite number self.old }
    {
        if number >= 2 {
            self.files[number as usize].rewrite();
        }
        Ok(())
    }

    /// Goes past the item at the position (ISO 7185, 6.6.5.2). Fault 12 exactly where the file is not in reading, and
    /// else fault 11 exactly where it is at its end.
    pub fn get(&mut self, number: u64) -> Result<(), FileEnd>
        requires { IsGiven self.old number }
        ensures moved { OnOk result (get (file_at self.old number) ≡ Gives tt (file_at self.new number)) }
        ensures fault { IfErr result (λ e. fault_of (get (file_at self.old number)) ≡ Some e) }
        ensures others { self.new ≡ with_file number (file_at self.new number) self.old }
        ensures unchanged { OnErr result (self.new ≡ self.old) }
    {
        self.files[number as usize].get()
    }

    /// Goes past the next line end, or to the end of the file (ISO 7185, 6.9.2). Fault 12 exactly where the file is not in
    /// reading, and else fault 11 exactly where it is at its end.
    pub fn read_line(&mut self, number: u64) -> Result<(), FileEnd>
        requires { IsGiven self.old number }
        ensures moved { OnOk result (read_line (file_at self.old number) ≡ Gives tt (file_at self.new number)) }
        ensures fault { IfErr result (λ e. fault_of (read_line (file_at self.old number)) ≡ Some e) }
        ensures others { self.new ≡ with_file number (file_at self.new number) self.old }
        ensures unchanged { OnErr result (self.new ≡ self.old) }
    {
        self.files[number as usize].read_line()
    }

    /// Reads an integer (ISO 7185, 6.9.1): past spaces and line ends, a sign or none, and all digits that follow. Fault 12
    /// exactly where the file is not in reading; else fault 11 exactly where nothing stands behind the spaces; else fault
    /// 13 exactly where there are no digits; else fault 1 exactly where the integer lies outside -`MAXINT` to `MAXINT`.
    pub fn read_int(&mut self, number: u64) -> Result<i64, FileEnd>
        requires { IsGiven self.old number }
        ensures number { IfOk result (λ n. read_number (file_at self.old number) ≡ Gives n (file_at self.new number)) }
        ensures fault { IfErr result (λ e. fault_of (read_number (file_at self.old number)) ≡ Some e) }
        ensures others { self.new ≡ with_file number (file_at self.new number) self.old }
        ensures unchanged { OnErr result (self.new ≡ self.old) }
    {
        self.files[number as usize].read_int()
    }

    // Whether so many bytes may be written to a file.
    fn may_write(&self, number: u64, count: usize) -> Result<(), FileEnd>
        requires { IsGiven self.now number }
        ensures ok { OnOk result (write_refusal number count self.now ≡ None) }
        ensures refused { IfErr result (λ e. write_refusal number count self.now ≡ Some e) }
    {
        if !self.files[number as usize].is_writing() {
            return Err(FileEnd::Fault(WRONG_STATE));
        }
        if count > OUTPUT_LIMIT - self.written {
            return Err(FileEnd::Limit(FILE_BYTES));
        }
        Ok(())
    }

    /// Writes characters at the end of the file; byte 10 is a character here and no line end. Fault 12 exactly where the
    /// file is not in writing, and else limit 4 exactly where the run would have written more than `OUTPUT_LIMIT` bytes to
    /// all its files; then nothing is written. To write no bytes asks whether the file is in writing.
    pub fn write(&mut self, number: u64, bytes: &[u8]) -> Result<(), FileEnd>
        requires { IsGiven self.old number }
        ensures room { OnOk result (write_refusal number (length bytes.now) self.old ≡ None) }
        ensures written { OnOk result (self.new ≡ after_writing number (characters bytes.now) self.old) }
        ensures refused { IfErr result (λ e. IsDue e (write_refusal number (length bytes.now) self.old)) }
        ensures unchanged { OnErr result (self.new ≡ self.old) }
    {
        match self.may_write(number, bytes.len()) {
            Ok(()) => {}
            Err(e) => return Err(e),
        }
        match self.files[number as usize].write(bytes) {
            Ok(()) => {
                self.written += bytes.len();
                Ok(())
            }
            Err(Memory) => Err(FileEnd::Memory),
        }
    }

    /// Writes the character at the end of the file (ISO 7185, 6.6.5.2), with the refusals of `write`.
    pub fn put(&mut self, number: u64, byte: u8) -> Result<(), FileEnd>
        requires { IsGiven self.old number }
        ensures room { OnOk result (write_refusal number 1 self.old ≡ None) }
        ensures written { OnOk result (self.new ≡ after_writing number (Character byte ∷ []) self.old) }
        ensures refused { IfErr result (λ e. IsDue e (write_refusal number 1 self.old)) }
        ensures unchanged { OnErr result (self.new ≡ self.old) }
    {
        self.write(number, &[byte])
    }

    // Writes bytes, of which each byte 10 is a line end.
    fn write_text(&mut self, number: u64, bytes: &[u8]) -> Result<(), FileEnd>
        requires { IsGiven self.old number }
        ensures room { OnOk result (write_refusal number (length bytes.now) self.old ≡ None) }
        ensures written { OnOk result (self.new ≡ after_writing number (items_of bytes.now) self.old) }
        ensures refused { IfErr result (λ e. IsDue e (write_refusal number (length bytes.now) self.old)) }
        ensures unchanged { OnErr result (self.new ≡ self.old) }
    {
        match self.may_write(number, bytes.len()) {
            Ok(()) => {}
            Err(e) => return Err(e),
        }
        match self.files[number as usize].write_text(bytes) {
            Ok(()) => {
                self.written += bytes.len();
                Ok(())
            }
            Err(Memory) => Err(FileEnd::Memory),
        }
    }

    /// Ends the line (ISO 7185, 6.9.4), with the refusals of `write`; a line end counts one byte.
    pub fn write_line(&mut self, number: u64) -> Result<(), FileEnd>
        requires { IsGiven self.old number }
        ensures room { OnOk result (write_refusal number 1 self.old ≡ None) }
        ensures written { OnOk result (self.new ≡ after_writing number (LineEnd ∷ []) self.old) }
        ensures refused { IfErr result (λ e. IsDue e (write_refusal number 1 self.old)) }
        ensures unchanged { OnErr result (self.new ≡ self.old) }
    {
        self.write_text(number, b"\n")
    }

    /// Ends an unfinished line and writes the character with the number 12 (ISO 7185, 6.9.5), both or neither, with the
    /// refusals of `write`.
    pub fn page(&mut self, number: u64) -> Result<(), FileEnd>
        requires { IsGiven self.old number }
        ensures room { OnOk result (write_refusal number (length (page_items (file_at self.old number))) self.old ≡ None) }
        ensures written { OnOk result (self.new ≡ after_writing number (page_items (file_at self.old number)) self.old) }
        ensures refused { IfErr result (λ e. IsDue e (write_refusal number (length (page_items (file_at self.old number))) self.old)) }
        ensures unchanged { OnErr result (self.new ≡ self.old) }
    {
        match self.may_write(number, 0) {
            Ok(()) => {}
            Err(e) => return Err(e),
        }
        let bytes = self.files[number as usize].page_bytes();
        self.write_text(number, bytes)
    }
}
