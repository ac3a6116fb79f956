ghost use Rattle.std.specs.Prelude.{◌≡◌, ◌≤◌, ◌<◌, ◌^◌, IfErr, IfOk, OnOk, length};
ghost use Rattle.mp_code.specs.BlockCode.{BlockCode, index_of_label};
ghost use Rattle.mp_code.specs.Shape.{IsFirstBad, IsShaped};

use crate::check::Draft;
use crate::instructions::Instr;
use std::marker::Model;
use thiserror::Error;

/// A clause of the shape of code fails at the index `at`, and at no lesser one.
#[derive(Clone, Copy, Debug, PartialEq, Eq, Error)]
#[error("bad code at {at}")]
pub struct BadCode {
    pub at: u32,
}

/// The code of a block, which has the shape that the machine relies on. It never changes; users share it behind an
/// `Arc`. To a contract it is its plain data, a `BlockCode`.
#[derive(Drop)]
pub struct Code {
    draft: Draft,
}

impl Model for Code {
    ghost use Rattle.mp_code.specs.BlockCode.{BlockCode};
    ghost use Rattle.mp_code.specs.Drafts.{draft_code};
    ghost use Rattle.mp_code.specs.Shape.{IsCode};

    ghost Value = { BlockCode };

    ghost view = { λ code. draft_code code.draft };

    ghost invariant = { λ code. IsCode (draft_code code.draft) };
}

fn index_of_label(labels: &[(u32, u32)], label: u32) -> Option<u32>
    ensures { result ≡ index_of_label labels.now label }
{
    'labels: for pair in labels {
        if pair.0 == label {
            return Some(pair.1);
        }
    }
    None
}

impl Code {
    /// The code with these instructions, the number of operands that stand before each, these labels, each with the
    /// index that it stands at, and a frame of so many cells, of which so many are counted.
    pub fn check(
        instructions: Vec<Instr>,
        depths: Vec<u32>,
        labels: Vec<(u32, u32)>,
        frame: u32,
        counted: u32,
    ) -> Result<Code, BadCode>
        requires few { length instructions.items < 2 ^ 32 }
        requires counted { counted ≤ frame }
        ensures ok { IfOk result (λ code. code ≡ record { instructions = instructions.items; depths = depths.items; labels = labels.items; frame = frame; counted = counted }) }
        ensures shaped { IfOk result (λ code. IsShaped code) }
        ensures err { IfErr result (λ bad. IsFirstBad (record { instructions = instructions.items; depths = depths.items; labels = labels.items; frame = frame; counted = counted }) bad.at) }
    {
        let draft = Draft {
            instructions,
            depths,
            labels,
            frame,
            counted,
        };
        match draft.first_bad() {
            Some(at) => Err(BadCode { at }),
            None => Ok(Code { draft }),
        }
    }

    /// The instructions.
    pub fn instructions(&self) -> &[Instr]
        ensures instructions { result.now ≡ self.now.instructions }
        ensures shaped { IsShaped self.now }
    {
        self.draft.instructions.as_slice()
    }

    /// How many operands stand before each instruction.
    pub fn depths(&self) -> &[u32]
        ensures { result.now ≡ self.now.depths }
    {
        self.draft.depths.as_slice()
    }

    /// The index that a label stands at, where there is one.
    pub fn index_of_label(&self, label: u32) -> Option<u32>
        ensures { result ≡ index_of_label self.now.labels label }
    {
        index_of_label(&self.draft.labels, label)
    }

    /// The cells of the block's frame.
    pub fn frame(&self) -> u32
        ensures { result ≡ self.now.frame }
    {
        self.draft.frame
    }

    /// The cells of the frame that are counted.
    pub fn counted(&self) -> u32
        ensures counted { result ≡ self.now.counted }
        ensures within { result ≤ self.now.frame }
    {
        self.draft.counted
    }
}
