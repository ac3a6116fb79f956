ghost use Rattle.std.specs.Prelude.{◌≡◌, ◌++◌, ◌+◌, ◌-◌, ◌^◌, ◌<◌, ◌≤◌, [], IfOk, OnErr, OnOk, drop, length, slice_index, take};
ghost use Rattle.mp_text.specs.Changes.{spliced};
ghost use Rattle.std.specs.Arc.{arc_value};
ghost use Rattle.std.specs.List.{AllWithin};
ghost use Rattle.mp_text.specs.Pieces.{CountsFrom, EndsFrom, IsLineStart, all_bytes, line_ends};

use crate::ends::{line_ends, past_line_ends};
use crate::piece::Piece;
use mp_base::{Bytes, Memory, Reader, Steps};
use std::alloc::Global;
use std::marker::Model;
use std::sync::Arc;

// A fresh run of bytes is cut into pieces of so many.
const PIECE: usize = 2_048;

/// The bytes of a version, in pieces that it shares with others.
#[derive(Drop)]
pub struct Pieces {
    pieces: Vec<Piece>,
}

impl Model for Pieces {
    ghost use Rattle.std.specs.Prelude.{List, ℕ};
    ghost use Rattle.mp_text.specs.Pieces.{ArePieces, all_bytes};

    ghost Value = { List ℕ };

    ghost view = { λ p. all_bytes p.pieces.items };

    ghost invariant = { λ p. ArePieces p.pieces.items };
}

// The first piece that ends past a place.
fn first_past(pieces: &[Piece], place: u32) -> usize
    requires { EndsFrom 0 pieces.now }
    ensures within { result ≤ length pieces.now }
    ensures before { AllWithin (λ piece. piece.end ≤ place) pieces.now 0 result }
    ensures after { AllWithin (λ piece. place < piece.end) pieces.now result (length pieces.now) }
{
    let mut low = 0;
    let mut high = pieces.len();
    'halves: while low < high {
        let middle = low + (high - low) / 2;
        if place < pieces[middle].end {
            high = middle;
        } else {
            low = middle + 1;
        }
    }
    low
}

// The first piece up to whose end so many line ends stand.
fn first_counting(pieces: &[Piece], count: u32) -> usize
    requires { CountsFrom 0 pieces.now }
    ensures within { result ≤ length pieces.now }
    ensures before { AllWithin (λ piece. piece.lines < count) pieces.now 0 result }
    ensures after { AllWithin (λ piece. count ≤ piece.lines) pieces.now result (length pieces.now) }
{
    let mut low = 0;
    let mut high = pieces.len();
    'halves: while low < high {
        let middle = low + (high - low) / 2;
        if count <= pieces[middle].lines {
            high = middle;
        } else {
            low = middle + 1;
        }
    }
    low
}

// How many line ends stand in the first so many pieces.
fn lines_before(pieces: &[Piece], i: usize) -> u32
    requires lines { CountsFrom 0 pieces.now }
    requires within { i ≤ length pieces.now }
    ensures { result ≡ line_ends (all_bytes (take i pieces.now)) }
{
    if i == 0 {
        return 0;
    }
    pieces[i - 1].lines
}

impl Pieces {
    /// No bytes.
    pub fn new(alloc: Global) -> Pieces
        ensures { result ≡ [] }
    {
        Pieces {
            pieces: Vec::new(alloc),
        }
    }

    // No bytes, with room for so many pieces.
    fn with_capacity(alloc: Global, count: usize) -> Result<Pieces, Memory>
        ensures { IfOk result (λ made. made ≡ []) }
    {
        Ok(Pieces {
            pieces: Vec::with_capacity(alloc, count)?,
        })
    }

    /// The same bytes, which are shared.
    pub fn copy(&self, alloc: Global) -> Result<Pieces, Memory>
        requires { length self.now < 2 ^ 32 }
        ensures { IfOk result (λ made. made ≡ self.now) }
    {
        let pieces = self.pieces.as_slice();
        let mut made = Pieces::with_capacity(alloc, pieces.len())?;
        made.share(pieces, 0)?;
        Ok(made)
    }

    /// How many line ends there are.
    pub fn line_ends(&self) -> u32
        ensures { result ≡ line_ends self.now }
    {
        let pieces = self.pieces.as_slice();
        lines_before(pieces, pieces.len())
    }

    /// How many line ends there are before a place.
    pub fn line_ends_to(&self, at: u32) -> u32
        requires { at ≤ length self.now }
        ensures { result ≡ line_ends (take at self.now) }
    {
        let pieces = self.pieces.as_slice();
        let i = first_past(pieces, at);
        if i == pieces.len() {
            return self.line_ends();
        }
        let piece = &pieces[i];
        let bytes = piece.bytes.as_slice();
        let before = lines_before(pieces, i);
        before + line_ends(&bytes[..at as usize + bytes.len() - piece.end as usize])
    }

    /// The place just past the first so many line ends.
    pub fn line_start(&self, count: u32) -> u32
        requires { count ≤ line_ends self.now }
        ensures { IsLineStart count result self.now }
    {
        if count == 0 {
            return 0;
        }
        let pieces = self.pieces.as_slice();
        let i = first_counting(pieces, count);
        let piece = &pieces[i];
        let bytes = piece.bytes.as_slice();
        let left = count - lines_before(pieces, i);
        (piece.end as usize + past_line_ends(bytes, left) - bytes.len()) as u32
    }

    /// The bytes in one.
    pub fn bytes(&self, alloc: Global) -> Result<Bytes, Memory>
        ensures { IfOk result (λ bytes. bytes ≡ self.now) }
    {
        let mut out = Vec::new(alloc);
        let pieces = self.pieces.as_slice();
        'pieces: for piece in pieces {
            out.extend_from_slice(piece.bytes.as_slice())?;
        }
        Ok(Bytes::from_vec(out))
    }

    /// The byte at a place.
    pub fn byte(&self, at: u32) -> u8
        requires { at < length self.now }
        ensures { result ≡ slice_index self.now at }
    {
        let pieces = self.pieces.as_slice();
        let piece = &pieces[first_past(pieces, at)];
        let bytes = piece.bytes.as_slice();
        bytes[at as usize + bytes.len() - piece.end as usize]
    }

    /// How many bytes there are.
    pub fn len(&self) -> u32
        ensures { result ≡ length self.now }
    {
        let pieces = self.pieces.as_slice();
        if pieces.is_empty() {
            return 0;
        }
        pieces[pieces.len() - 1].end
    }

    // Adds bytes, which are shared; `lines` is the number of their line ends.
    fn add(&mut self, bytes: Arc<Vec<u8>>, lines: u32) -> Result<(), Memory>
        requires room { length self.old + length (arc_value bytes).items < 2 ^ 32 }
        requires lines { lines ≡ line_ends (arc_value bytes).items }
        ensures ok { OnOk result (self.new ≡ self.old ++ (arc_value bytes).items) }
        ensures err { OnErr result (self.new ≡ self.old) }
    {
        let end = self.len() + bytes.as_slice().len() as u32;
        let lines = self.line_ends() + lines;
        self.pieces.push(Piece { bytes, end, lines })?;
        Ok(())
    }

    // Adds pieces of another version, which are shared; so many line ends stand before them there.
    fn share(&mut self, pieces: &[Piece], before: u32) -> Result<(), Memory>
        requires room { length self.old + length (all_bytes pieces.now) < 2 ^ 32 }
        requires lines { CountsFrom before pieces.now }
        ensures { OnOk result (self.new ≡ self.old ++ all_bytes pieces.now) }
    {
        let mut lines = before;
        'pieces: for piece in pieces {
            self.add(Arc::try_clone(&piece.bytes)?, piece.lines - lines)?;
            lines = piece.lines;
        }
        Ok(())
    }

    // Shares the pieces that end before a place, and gives the run the bytes up to it of the next one. So lines that are
    // added at the end, one by one, go on the last piece.
    fn add_front(&mut self, run: &mut Vec<u8>, pieces: &[Piece], place: u32) -> Result<(), Memory>
        requires ends { EndsFrom 0 pieces.now }
        requires lines { CountsFrom 0 pieces.now }
        requires within { place ≤ length (all_bytes pieces.now) }
        requires room { length self.old + length (all_bytes pieces.now) < 2 ^ 32 }
        requires none { run.old.items ≡ [] }
        ensures { OnOk result (self.new ++ run.new.items ≡ self.old ++ take place (all_bytes pieces.now)) }
    {
        let first = first_past(pieces, place.saturating_sub(1));
        self.share(&pieces[..first], 0)?;
        if first == pieces.len() {
            return Ok(());
        }
        let piece = &pieces[first];
        let bytes = piece.bytes.as_slice();
        run.extend_from_slice(&bytes[..place as usize + bytes.len() - piece.end as usize])?;
        Ok(())
    }

    // Adds a run of bytes, cut into pieces of PIECE bytes, of which the last has fewer than twice as many.
    fn add_run(&mut self, alloc: Global, run: &[u8]) -> Result<(), Memory>
        requires { length self.old + length run.now < 2 ^ 32 }
        ensures { OnOk result (self.new ≡ self.old ++ run.now) }
    {
        let mut at = 0;
        'cuts: while run.len() - at >= 2 * PIECE {
            let bytes = &run[at..at + PIECE];
            let lines = line_ends(bytes);
            self.add(Arc::new(alloc, Vec::from_slice(alloc, bytes)?)?, lines)?;
            at += PIECE;
        }
        let bytes = &run[at..];
        let lines = line_ends(bytes);
        self.add(Arc::new(alloc, Vec::from_slice(alloc, bytes)?)?, lines)?;
        Ok(())
    }

    // Adds the run, and the bytes from a place on, with the pieces behind it shared.
    fn add_back(
        &mut self,
        alloc: Global,
        mut run: Vec<u8>,
        pieces: &[Piece],
        place: u32,
    ) -> Result<(), Memory>
        requires ends { EndsFrom 0 pieces.now }
        requires lines { CountsFrom 0 pieces.now }
        requires within { place ≤ length (all_bytes pieces.now) }
        requires room { length self.old + length run.items + length (all_bytes pieces.now) < 2 ^ 32 }
        ensures { OnOk result (self.new ≡ self.old ++ (run.items ++ drop place (all_bytes pieces.now))) }
    {
        let last = first_past(pieces, place);
        if last == pieces.len() {
            self.add_run(alloc, run.as_slice())?;
            return Ok(());
        }
        let piece = &pieces[last];
        let bytes = piece.bytes.as_slice();
        run.extend_from_slice(&bytes[place as usize + bytes.len() - piece.end as usize..])?;
        self.add_run(alloc, run.as_slice())?;
        self.share(&pieces[last + 1..], lines_before(pieces, last + 1))?;
        Ok(())
    }

    /// The bytes with others in place of so many from a place on. What is not cut is shared.
    pub fn spliced(
        &self,
        alloc: Global,
        start: u32,
        removed: u32,
        new: &[u8],
    ) -> Result<Pieces, Memory>
        requires within { start + removed ≤ length self.now }
        requires room { length self.now + length self.now + length new.now < 2 ^ 32 }
        ensures { IfOk result (λ made. made ≡ spliced start removed new.now self.now) }
    {
        let pieces = self.pieces.as_slice();
        let count = pieces
            .len()
            .saturating_add(new.len() / PIECE)
            .saturating_add(2);
        let mut made = Pieces::with_capacity(alloc, count)?;
        let mut run = Vec::new(alloc);
        made.add_front(&mut run, pieces, start)?;
        run.extend_from_slice(new)?;
        made.add_back(alloc, run, pieces, start + removed)?;
        Ok(made)
    }
}

/// A version's bytes, read one by one; each that is read is a step of the counter that is given.
#[derive(Drop)]
pub struct VersionReader<'t> {
    pub(crate) pieces: &'t Pieces,
}

impl<'t> Model for VersionReader<'t> {
    ghost use Rattle.std.specs.Prelude.{List, ℕ};

    ghost Value = { List ℕ };

    ghost view = { λ reader. reader.pieces.now };
}

impl<'t, L> Reader<L> for VersionReader<'t> {
    ghost bytes = { λ reader. reader };

    fn len(&self) -> u32 {
        self.pieces.len()
    }

    fn byte(&self, at: u32, steps: &mut Steps<L>) -> u8 {
        steps.tick();
        self.pieces.byte(at)
    }
}
