ghost use Rattle.std.specs.Prelude.{◌≡◌, ◌+◌, ◌≤◌, [], IfOk, length};
ghost use Rattle.mp_base.specs.declared.limits.TheConstants.{TEXT_LIMIT};
ghost use Rattle.mp_base.specs.Position.{position_of};
ghost use Rattle.mp_base.specs.Text.{bytes_of};
ghost use Rattle.mp_text.specs.Changes.{change_bytes, change_removed, change_start, size_to};
ghost use Rattle.mp_text.specs.Edits.{IsInRange, edited, line_at};
ghost use Rattle.mp_text.specs.Versions.{IsText};

use crate::bytes::new_bytes;
use crate::edits::Edit;
use crate::pieces::{Pieces, VersionReader};
use mp_base::{At, Bytes, Memory, TEXT_LIMIT};
use std::alloc::Global;
use std::marker::Model;

/// A text whose bytes stand in pieces that versions share. Its last line is ended, so that its lines and its bytes tell
/// each other.
#[derive(Drop)]
pub(crate) struct SharedText {
    pieces: Pieces,
}

impl Model for SharedText {
    ghost use Rattle.std.specs.Prelude.{◌≡◌, List, ℕ};
    ghost use Rattle.mp_base.specs.Text.{bytes_of, lines_of};

    ghost Value = { List (List ℕ) };

    ghost view = { λ text. lines_of text.pieces };

    ghost invariant = { λ text. bytes_of (lines_of text.pieces) ≡ text.pieces };
}

impl SharedText {
    /// No lines.
    pub(crate) fn new(alloc: Global) -> SharedText
        ensures { result ≡ [] }
    {
        SharedText {
            pieces: Pieces::new(alloc),
        }
    }

    /// The bytes, one by one.
    pub(crate) fn reader(&self) -> VersionReader<'_>
        ensures { result ≡ bytes_of self.now }
    {
        VersionReader {
            pieces: &self.pieces,
        }
    }

    /// The bytes in one, each line with its line end.
    pub(crate) fn bytes(&self, alloc: Global) -> Result<Bytes, Memory>
        ensures { IfOk result (λ bytes. bytes ≡ bytes_of self.now) }
    {
        self.pieces.bytes(alloc)
    }

    /// How many bytes there are.
    pub(crate) fn len(&self) -> u32
        ensures { result ≡ length (bytes_of self.now) }
    {
        self.pieces.len()
    }

    /// The same text, with all its pieces shared.
    pub(crate) fn copy(&self, alloc: Global) -> Result<SharedText, Memory>
        requires { length (bytes_of self.now) ≤ TEXT_LIMIT }
        ensures { IfOk result (λ made. made ≡ self.now) }
    {
        let pieces = self.pieces.copy(alloc)?;
        Ok(SharedText { pieces })
    }

    /// The number of lines.
    pub(crate) fn line_count(&self) -> u32
        ensures { result ≡ length self.now }
    {
        self.pieces.line_ends()
    }

    /// The number of bytes of the first lines, with their line ends.
    pub(crate) fn size_to(&self, lines: u32) -> u32
        requires { lines ≤ length self.now }
        ensures { result ≡ size_to lines self.now }
    {
        self.pieces.line_start(lines)
    }

    /// The number of bytes of a line.
    pub(crate) fn line_len(&self, line: u32) -> u32
        requires first { 1 ≤ line }
        requires last { line ≤ length self.now }
        ensures { result ≡ length (line_at self.now line) }
    {
        self.size_to(line) - self.size_to(line - 1) - 1
    }

    /// The line and column of a byte, or of the end.
    pub(crate) fn position(&self, byte: u32) -> At
        requires within { byte ≤ length (bytes_of self.now) }
        requires small { length (bytes_of self.now) ≤ TEXT_LIMIT }
        ensures { result ≡ position_of self.now byte }
    {
        let before = self.pieces.line_ends_to(byte);
        let start = self.pieces.line_start(before);
        At {
            line: before + 1,
            column: byte - start + 1,
        }
    }

    /// Where an edit changes the bytes.
    #[tactic(auto, unfolding(crate::specs::Changes::change_start))]
    pub(crate) fn change_start(&self, edit: &Edit) -> u32
        requires range { IsInRange edit.now self.now }
        requires small { length (bytes_of self.now) ≤ TEXT_LIMIT }
        ensures { result ≡ change_start edit.now self.now }
    {
        match edit {
            Edit::Insert { after, .. } => self.size_to(*after),
            Edit::Delete { first, .. } => self.size_to(*first - 1),
            Edit::Replace { first, .. } => self.size_to(*first - 1),
            Edit::Sub { line, column, .. } => self.size_to(*line - 1) + (*column - 1),
        }
    }

    /// How many bytes an edit takes away.
    #[tactic(auto, unfolding(crate::specs::Changes::change_removed))]
    pub(crate) fn change_removed(&self, edit: &Edit) -> u32
        requires range { IsInRange edit.now self.now }
        ensures { result ≡ change_removed edit.now self.now }
    {
        match edit {
            Edit::Insert { .. } => 0,
            Edit::Delete { first, last } => self.size_to(*last) - self.size_to(*first - 1),
            Edit::Replace { first, last, .. } => self.size_to(*last) - self.size_to(*first - 1),
            Edit::Sub { count, .. } => *count,
        }
    }

    /// The text that an edit makes; what it leaves as it was is shared.
    pub(crate) fn edited(&self, alloc: Global, edit: &Edit) -> Result<SharedText, Memory>
        requires range { IsInRange edit.now self.now }
        requires text { IsText self.now }
        requires made { IsText (edited edit.now self.now) }
        ensures { IfOk result (λ made. made ≡ edited edit.now self.now) }
    {
        let start = self.change_start(edit);
        let removed = self.change_removed(edit);
        let new = new_bytes(alloc, edit)?;
        let pieces = self.pieces.spliced(alloc, start, removed, new.get())?;
        Ok(SharedText { pieces })
    }
}
