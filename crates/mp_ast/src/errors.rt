ghost use Rattle.std.specs.Prelude.{◌≡◌, [], ◌∷◌, ◌++◌, OnOk, OnErr};

use mp_base::Memory;
use std::alloc::Global;
use std::marker::Model;

/// A lexical error: an item of the text that is neither a separator nor a token of ISO 7185, 6.1.
#[derive(Clone, Copy)]
pub struct LexError {
    /// The byte of the text at which the item starts, from 0.
    pub start: u32,
    /// Bytes of the item.
    pub len: u32,
    /// What is wrong: 101 to 108, as listings name it.
    pub code: u16,
}

/// A list of lexical errors, in the order of the text.
#[derive(Drop)]
pub struct LexErrors {
    items: Vec<LexError>,
}

impl Model for LexErrors {
    ghost use Rattle.std.specs.Prelude.{List};
    ghost use Rattle.mp_ast.specs.declared.errors.LexError.{LexError};

    ghost Value = { List LexError };

    ghost view = { λ errors. errors.items.items };
}

impl LexErrors {
    /// No errors.
    pub fn new(alloc: Global) -> LexErrors
        ensures { result ≡ [] }
    {
        LexErrors {
            items: Vec::new(alloc),
        }
    }

    /// Adds an error at the end; want of memory leaves the list as it is.
    pub fn push(&mut self, error: LexError) -> Result<(), Memory>
        ensures ok { OnOk result (self.new ≡ self.old ++ error ∷ []) }
        ensures err { OnErr result (self.new ≡ self.old) }
    {
        self.items.push(error)?;
        Ok(())
    }

    /// The errors, in order.
    pub fn get(&self) -> &[LexError]
        ensures { result.now ≡ self.now }
    {
        self.items.as_slice()
    }
}
