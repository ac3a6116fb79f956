// The blocks whose code was loaded.
ghost use Rattle.std.specs.Prelude.{◌≡◌, ◌∷◌, ◌++◌, [], ◌<◌, None, Some, IfNone, IfSome, OnErr, OnOk, length, option_copied, slice_get};
ghost use Rattle.std.specs.Arc.{arc_value};
ghost use Rattle.std.specs.Option.{option_map};
ghost use Rattle.mp_code.specs.BlockCode.{BlockCode};
ghost use Rattle.mp_machine.specs.Blocks.{depth, same_path};
ghost use Rattle.mp_machine.specs.CallRows.{label_in};
ghost use Rattle.mp_machine.specs.Loads.{IsFound, path_in, paths_of};
ghost use Rattle.mp_machine.specs.States.{Loaded, code_of};

use mp_base::{Memory, Path};
use mp_code::Code;
use std::alloc::Global;
use std::marker::Model;
use std::sync::Arc;

/// A block with its code.
#[derive(Drop)]
pub(crate) struct LoadedBlock {
    pub path: Path,
    pub code: Arc<Code>,
}

/// The loaded blocks, in the order in which they were loaded.
#[derive(Drop)]
pub(crate) struct LoadedBlocks {
    blocks: Vec<LoadedBlock>,
}

impl Model for LoadedBlocks {
    ghost use Rattle.std.specs.Prelude.{map};
    ghost use Rattle.mp_machine.specs.States.{Codes};
    ghost use Rattle.mp_machine.specs.Loads.{loaded_by};

    ghost Value = { Codes };

    ghost view = { λ l. map loaded_by l.blocks.items };
}

// Whether two paths are those of one block.
pub(crate) fn is_same(p: &Path, q: &Path) -> bool
    ensures { result ≡ same_path p.now q.now }
{
    p == q
}

impl LoadedBlocks {
    pub fn new(alloc: Global) -> LoadedBlocks
        ensures { result ≡ [] }
    {
        LoadedBlocks {
            blocks: Vec::new(alloc),
        }
    }

    /// One block more.
    pub fn add(&mut self, path: Path, code: Arc<Code>) -> Result<(), Memory>
        ensures ok { OnOk result (self.new ≡ self.old ++ record { path = path; code = arc_value code } ∷ []) }
        ensures err { OnErr result (self.new ≡ self.old) }
    {
        self.blocks.push(LoadedBlock { path, code })?;
        Ok(())
    }

    /// The block at a place.
    #[inline(always)]
    pub fn path(&self, place: usize) -> Option<&Path>
        ensures { option_copied result ≡ option_map (λ l. l.path) (slice_get self.now place) }
    {
        match self.blocks.get(place) {
            Some(block) => Some(&block.path),
            None => None,
        }
    }

    /// The static depth of the block at a place, 0 for the program's.
    #[inline(always)]
    pub fn depth(&self, place: usize) -> usize
        ensures { result ≡ depth (paths_of self.now place) }
    {
        match self.path(place) {
            Some(path) => path.steps().len(),
            None => 0,
        }
    }

    /// The code of the block at a place.
    #[inline(always)]
    pub fn code(&self, place: usize) -> Option<&Code>
        ensures { option_copied result ≡ option_map (λ l. l.code) (slice_get self.now place) }
    {
        match self.blocks.get(place) {
            Some(block) => Some(&*block.code),
            None => None,
        }
    }

    /// The place of a block, where it was loaded.
    pub fn find(&self, path: &Path) -> Option<usize>
        ensures found { IfSome result (λ place. IsFound self.now path.now place) }
        ensures none { IfNone result (code_of self.now path.now ≡ None) }
    {
        'blocks: for place in 0..self.blocks.len() {
            if is_same(&self.blocks[place].path, path) {
                return Some(place);
            }
        }
        None
    }

    /// The code of a block and its place, where it was loaded.
    pub fn find_code(&self, path: &Path) -> Option<(usize, &Code)>
        ensures place { IfSome result (λ found. paths_of self.now found.0 ≡ path.now) }
        ensures within { IfSome result (λ found. found.0 < length self.now) }
        ensures code { IfSome result (λ found. code_of self.now path.now ≡ Some found.1.now) }
        ensures none { IfNone result (code_of self.now path.now ≡ None) }
    {
        match self.find(path) {
            Some(place) => Some((place, &*self.blocks[place].code)),
            None => None,
        }
    }

    /// The index that a label of the block at a place stands at, where its code has the label.
    pub fn label_at(&self, place: usize, label: u32) -> Option<u32>
        requires { place < length self.now }
        ensures { result ≡ label_in (code_of self.now (paths_of self.now place)) label }
    {
        match self.find_code(&self.blocks[place].path) {
            Some((_, code)) => code.index_of_label(label),
            None => None,
        }
    }
}
