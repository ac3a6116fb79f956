ghost use Rattle.std.specs.Prelude.{◌≡◌, ◌+◌, ◌*◌, ◌≤◌, ◌<◌, ◌^◌, ◌++◌, [], IfOk, IfSome, OnOk, OnErr, length, slice_get, vec_capacity, ℕ};
ghost use Rattle.mp_files.specs.Items.{bytes_of, characters, items_of};
ghost use Rattle.mp_files.specs.Stored.{AreMarked, is_marked, marked_item};

use crate::items::Item;
use crate::marks::{is_marked, mark_range};
use mp_base::Memory;
use std::alloc::Global;
use std::marker::Model;

// A list of items, a byte each. Lanes of marks are kept as far as the last character with the number 10: a list without
// such characters has none.
#[derive(Drop)]
pub(crate) struct ItemList {
    bytes: Vec<u8>,
    marks: Vec<u8>,
}

impl Model for ItemList {
    ghost use Rattle.std.specs.Prelude.{List, length};
    ghost use Rattle.mp_files.specs.declared.items.Item.{Item};

    ghost Value = { List Item };

    ghost use Rattle.mp_files.specs.Stored.{NoneMarked, items_kept};

    ghost view = { λ list. items_kept list.marks.items 0 list.bytes.items };

    ghost invariant = { λ list. NoneMarked list.marks.items (length list.bytes.items) };
}

// The item of a byte.
fn marked_item(byte: u8, marked: bool) -> Item
    ensures { result ≡ marked_item byte marked }
{
    if byte == b'\n' && !marked {
        Item::LineEnd
    } else {
        Item::Character(byte)
    }
}

// Makes room for so many bytes more. The room grows by a small part of what is there, so that a long file costs little
// more than its bytes.
fn make_room(bytes: &mut Vec<u8>, more: usize) -> Result<(), Memory>
    ensures items { bytes.new.items ≡ bytes.old.items }
    ensures ok { OnOk result (length bytes.old.items + more ≤ vec_capacity bytes.new) }
{
    if bytes.capacity() - bytes.len() >= more {
        return Ok(());
    }
    let step = bytes.len() / 32 + 1024;
    bytes.reserve_exact(more.max(step))?;
    Ok(())
}

// Makes lanes for so many places; none of the new ones is marked.
fn make_lanes(marks: &mut Vec<u8>, places: usize) -> Result<(), Memory>
    ensures lanes { OnOk result (places ≤ 8 * length marks.new.items) }
    ensures same { (at : ℕ) → is_marked marks.new.items at ≡ is_marked marks.old.items at }
{
    let lanes = places / 8 + 1;
    let old = marks.len();
    if lanes <= old {
        return Ok(());
    }
    make_room(marks, lanes - old)?;
    marks.resize(lanes, 0)?;
    Ok(())
}

// Marks the characters with the number 10 among those that are put at a place and behind it; where there are none, it
// makes no lanes.
fn mark_characters(marks: &mut Vec<u8>, from: usize, bytes: &[u8]) -> Result<(), Memory>
    requires { from + length bytes.now < 2 ^ 64 }
    ensures ok { OnOk result (AreMarked marks.old.items marks.new.items from bytes.now) }
    ensures err { OnErr result ((at : ℕ) → is_marked marks.new.items at ≡ is_marked marks.old.items at) }
{
    if !bytes.contains(&b'\n') {
        return Ok(());
    }
    let to = from + bytes.len();
    make_lanes(marks, to)?;
    mark_range(marks, from, to);
    Ok(())
}

impl ItemList {
    pub(crate) fn new(alloc: Global) -> ItemList
        ensures { result ≡ [] }
    {
        ItemList {
            bytes: Vec::new(alloc),
            marks: Vec::new(alloc),
        }
    }

    // The items of an input, in which each byte 10 is a line end.
    pub(crate) fn of(alloc: Global, bytes: &[u8]) -> Result<ItemList, Memory>
        ensures { IfOk result (λ list. list ≡ items_of bytes.now) }
    {
        Ok(ItemList {
            bytes: Vec::from_slice(alloc, bytes)?,
            marks: Vec::new(alloc),
        })
    }

    pub(crate) fn len(&self) -> usize
        ensures { result ≡ length self.now }
    {
        self.bytes.len()
    }

    pub(crate) fn get(&self, at: usize) -> Option<Item>
        ensures item { result ≡ slice_get self.now at }
        ensures next { IfSome result (λ item. at + 1 < 2 ^ 64) }
    {
        if at < self.bytes.len() {
            Some(marked_item(self.bytes[at], is_marked(&self.marks, at)))
        } else {
            None
        }
    }

    // The items as bytes, a line end as byte 10.
    pub(crate) fn bytes(&self) -> &[u8]
        ensures { result.now ≡ bytes_of self.now }
    {
        self.bytes.as_slice()
    }

    pub(crate) fn clear(&mut self)
        ensures { self.new ≡ [] }
    {
        self.bytes.clear();
        self.marks.clear();
    }

    // Adds bytes at the end, in which each byte 10 is a line end; want of memory leaves the list as it is.
    pub(crate) fn add_text(&mut self, bytes: &[u8]) -> Result<(), Memory>
        ensures ok { OnOk result (self.new ≡ self.old ++ items_of bytes.now) }
        ensures err { OnErr result (self.new ≡ self.old) }
    {
        make_room(&mut self.bytes, bytes.len())?;
        self.bytes.extend_from_slice(bytes)?;
        Ok(())
    }

    // Adds characters at the end; want of memory leaves the list as it is.
    pub(crate) fn add_characters(&mut self, bytes: &[u8]) -> Result<(), Memory>
        ensures ok { OnOk result (self.new ≡ self.old ++ characters bytes.now) }
        ensures err { OnErr result (self.new ≡ self.old) }
    {
        make_room(&mut self.bytes, bytes.len())?;
        mark_characters(&mut self.marks, self.bytes.len(), bytes)?;
        self.bytes.extend_from_slice(bytes).unwrap();
        Ok(())
    }
}
