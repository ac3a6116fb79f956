ghost use Rattle.std.specs.Prelude.{◌≡◌, ◌++◌, IfOk, IfErr, OnOk, OnErr, Some, IsTrue, slice_get, ◌+◌, ◌<◌, ◌≤◌, ◌^◌};
ghost use Rattle.mp_files.specs.Items.{bytes_of, characters, items_of};
ghost use Rattle.mp_files.specs.TextFiles.{Gives, closed_file, contents, eof, eoln, get, input_file, is_unfinished, is_writing, output_file, page_items, read_line, read_number, reset, rewrite, shown, signed, with_written};
ghost use Rattle.mp_base.specs.declared.limits.TheConstants.{MAXINT};
ghost use Rattle.mp_files.specs.RunFiles.{fault_of};
ghost use Rattle.mp_files.specs.Stored.{file_kept, item_refusal};

use crate::causes::{END_OF_FILE, FileEnd, INTEGER_OVERFLOW, NO_NUMBER, WRONG_STATE};
use crate::item_list::ItemList;
use crate::items::{Item, ItemClass};
use crate::reading::{end_of, sign_end, value_between};
use mp_base::{MAXINT, Memory};
use std::alloc::Global;
use std::marker::Model;

// The state of a file; in reading the place of the next item.
#[derive(Clone, Copy)]
pub(crate) enum Place {
    Closed,
    Reading(usize),
    Writing,
}

// One text file.
#[derive(Drop)]
pub(crate) struct StoredFile {
    items: ItemList,
    place: Place,
}

impl Model for StoredFile {
    ghost use Rattle.mp_files.specs.TextFiles.{TextFile};

    ghost Value = { TextFile };

    ghost use Rattle.mp_files.specs.Stored.{file_kept};

    ghost view = { λ file. file_kept file.items file.place };
}

// The place of the next item of a file in reading, and the item.
fn next_item(items: &ItemList, place: Place) -> Result<(usize, Item), FileEnd>
    ensures reading { IfOk result (λ next. place ≡ Place.Reading next.0) }
    ensures item { IfOk result (λ next. slice_get items.now next.0 ≡ Some next.1) }
    ensures more { IfOk result (λ next. next.0 + 1 < 2 ^ 64) }
    ensures refused { IfErr result (λ e. item_refusal (file_kept items.now place) ≡ Some e) }
{
    let Place::Reading(at) = place else {
        return Err(FileEnd::Fault(WRONG_STATE));
    };
    match items.get(at) {
        Some(item) => Ok((at, item)),
        None => Err(FileEnd::Fault(END_OF_FILE)),
    }
}

// The number of this value, with a minus sign or without.
fn signed(negative: bool, value: u64) -> i64
    requires { value ≤ MAXINT }
    ensures { result ≡ signed negative value }
{
    let value = value as i64;
    if negative { -value } else { value }
}

// Whether the last line has no line end.
fn is_unfinished(items: &ItemList) -> bool
    ensures { result ≡ is_unfinished items.now }
{
    let len = items.len();
    if len == 0 {
        return false;
    }
    match items.get(len - 1) {
        Some(item) => !item.is_line_end(),
        None => false,
    }
}

impl StoredFile {
    // A closed and empty file.
    pub(crate) fn closed(alloc: Global) -> StoredFile
        ensures { result ≡ closed_file }
    {
        StoredFile {
            items: ItemList::new(alloc),
            place: Place::Closed,
        }
    }

    // `output` as a run begins.
    pub(crate) fn output(alloc: Global) -> StoredFile
        ensures { result ≡ output_file }
    {
        StoredFile {
            items: ItemList::new(alloc),
            place: Place::Writing,
        }
    }

    // `input` of these bytes.
    pub(crate) fn input(alloc: Global, bytes: &[u8]) -> Result<StoredFile, Memory>
        ensures { IfOk result (λ file. file ≡ input_file bytes.now) }
    {
        Ok(StoredFile {
            items: ItemList::of(alloc, bytes)?,
            place: Place::Reading(0),
        })
    }

    // All that stands in the file, as bytes.
    pub(crate) fn bytes(&self) -> &[u8]
        ensures { result.now ≡ bytes_of (contents self.now) }
    {
        self.items.bytes()
    }

    pub(crate) fn eof(&self) -> Result<bool, FileEnd>
        ensures value { IfOk result (λ ends. eof self.now ≡ Gives ends self.now) }
        ensures fault { IfErr result (λ e. fault_of (eof self.now) ≡ Some e) }
    {
        match self.place {
            Place::Closed => Err(FileEnd::Fault(WRONG_STATE)),
            Place::Reading(at) => Ok(at >= self.items.len()),
            Place::Writing => Ok(true),
        }
    }

    pub(crate) fn eoln(&self) -> Result<bool, FileEnd>
        ensures value { IfOk result (λ ends. eoln self.now ≡ Gives ends self.now) }
        ensures fault { IfErr result (λ e. fault_of (eoln self.now) ≡ Some e) }
    {
        match next_item(&self.items, self.place) {
            Ok((_, item)) => Ok(item.is_line_end()),
            Err(e) => Err(e),
        }
    }

    pub(crate) fn shown(&self) -> Option<u8>
        ensures { result ≡ shown self.now }
    {
        let Place::Reading(at) = self.place else {
            return None;
        };
        match self.items.get(at) {
            Some(Item::Character(byte)) => Some(byte),
            Some(Item::LineEnd) => Some(b' '),
            None => None,
        }
    }

    pub(crate) fn get(&mut self) -> Result<(), FileEnd>
        ensures moved { OnOk result (get self.old ≡ Gives tt self.new) }
        ensures fault { IfErr result (λ e. fault_of (get self.old) ≡ Some e) }
        ensures unchanged { OnErr result (self.new ≡ self.old) }
    {
        match next_item(&self.items, self.place) {
            Ok((at, _)) => {
                self.place = Place::Reading(at + 1);
                Ok(())
            }
            Err(e) => Err(e),
        }
    }

    pub(crate) fn read_line(&mut self) -> Result<(), FileEnd>
        ensures moved { OnOk result (read_line self.old ≡ Gives tt self.new) }
        ensures fault { IfErr result (λ e. fault_of (read_line self.old) ≡ Some e) }
        ensures unchanged { OnErr result (self.new ≡ self.old) }
    {
        match next_item(&self.items, self.place) {
            Ok((at, _)) => {
                let end = end_of(&self.items, ItemClass::Character, at);
                self.place = Place::Reading(if end < self.items.len() { end + 1 } else { end });
                Ok(())
            }
            Err(e) => Err(e),
        }
    }

    pub(crate) fn read_int(&mut self) -> Result<i64, FileEnd>
        ensures number { IfOk result (λ n. read_number self.old ≡ Gives n self.new) }
        ensures fault { IfErr result (λ e. fault_of (read_number self.old) ≡ Some e) }
        ensures unchanged { OnErr result (self.new ≡ self.old) }
    {
        let Place::Reading(at) = self.place else {
            return Err(FileEnd::Fault(WRONG_STATE));
        };
        let start = end_of(&self.items, ItemClass::Space, at);
        let Some(first) = self.items.get(start) else {
            return Err(FileEnd::Fault(END_OF_FILE));
        };
        let digits = sign_end(&self.items, start);
        let end = end_of(&self.items, ItemClass::Digit, digits);
        if end == digits {
            return Err(FileEnd::Fault(NO_NUMBER));
        }
        let value = value_between(&self.items, digits, end);
        if value > MAXINT {
            return Err(FileEnd::Fault(INTEGER_OVERFLOW));
        }
        self.place = Place::Reading(end);
        Ok(signed(first.is_minus(), value))
    }

    pub(crate) fn reset(&mut self) -> Result<(), Memory>
        ensures ok { OnOk result (self.new ≡ reset self.old) }
        ensures unfinished { OnErr result (IsTrue (is_unfinished (contents self.old))) }
        ensures err { OnErr result (self.new ≡ self.old) }
    {
        if is_unfinished(&self.items) {
            self.items.add_text(b"\n")?;
        }
        self.place = Place::Reading(0);
        Ok(())
    }

    pub(crate) fn rewrite(&mut self)
        ensures { self.new ≡ rewrite self.old }
    {
        self.items.clear();
        self.place = Place::Writing;
    }

    pub(crate) fn is_writing(&self) -> bool
        ensures { result ≡ is_writing self.now.state }
    {
        match self.place {
            Place::Writing => true,
            _ => false,
        }
    }

    // Characters at the end of a file in writing.
    pub(crate) fn write(&mut self, bytes: &[u8]) -> Result<(), Memory>
        requires { IsTrue (is_writing self.old.state) }
        ensures ok { OnOk result (self.new ≡ with_written (characters bytes.now) self.old) }
        ensures err { OnErr result (self.new ≡ self.old) }
    {
        self.items.add_characters(bytes)
    }

    // Bytes at the end of a file in writing, of which each byte 10 is a line end.
    pub(crate) fn write_text(&mut self, bytes: &[u8]) -> Result<(), Memory>
        requires { IsTrue (is_writing self.old.state) }
        ensures ok { OnOk result (self.new ≡ with_written (items_of bytes.now) self.old) }
        ensures err { OnErr result (self.new ≡ self.old) }
    {
        self.items.add_text(bytes)
    }

    // What `page` writes to a file in writing, as bytes.
    pub(crate) fn page_bytes(&self) -> &'static [u8]
        requires { IsTrue (is_writing self.now.state) }
        ensures { items_of result.now ≡ page_items self.now }
    {
        if is_unfinished(&self.items) {
            b"\n\x0c"
        } else {
            b"\x0c"
        }
    }
}
