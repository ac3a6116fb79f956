// One instruction: its row of the table.
ghost use Rattle.std.specs.Prelude.{◌≡◌, ◌-◌, ◌^◌, ◌<◌, OnOk, false, length, true};
ghost use Rattle.mp_machine.specs.Loads.{paths_of};
ghost use Rattle.mp_machine.specs.Plays.{grows, is_call, wants_memory};
ghost use Rattle.mp_machine.specs.Shown.{Agrees, Fits, IsLoaded, NoMemory, Sound, WhereMissing, state_of};
ghost use Rattle.mp_machine.specs.Table.{row};

use crate::codes::LoadedBlocks;
use crate::processor::{Processor, Stop};
use mp_code::Operation;
use mp_memory::{Cell, MemberSet};

impl Processor {
    /// The row of an instruction. Where a block is missing nothing is changed.
    #[tactic(auto, using(crate::proofs::KeptLemmas::sound_kept, crate::proofs::KeptLemmas::loaded_kept))]
    pub(crate) fn play(&mut self, codes: &LoadedBlocks, operation: &Operation) -> Result<(), Stop>
        requires sound { Sound self.old }
        requires loaded { IsLoaded (length codes.now) self.old }
        requires fewer { self.old.store.next < 2 ^ 64 - 1 }
        requires room { grows operation.now ≡ true → Fits 1 self.old }
        ensures row { Agrees (row codes.now operation.now (state_of (paths_of codes.now) self.old)) result (state_of (paths_of codes.now) self.new) }
        ensures sound { OnOk result (Sound self.new) }
        ensures loaded { IsLoaded (length codes.now) self.new }
        ensures unchanged { is_call operation.now ≡ true → WhereMissing result (self.new ≡ self.old) }
        ensures memory { wants_memory operation.now ≡ false → NoMemory result }
    {
        match operation {
            Operation::Stmt => Ok(()),
            Operation::Int { value } => {
                self.put_number(*value);
                Ok(())
            }
            Operation::Nil => {
                self.put_cell(Cell::Ptr(0));
                Ok(())
            }
            Operation::Empty => {
                self.put_members(MemberSet::empty());
                Ok(())
            }
            Operation::Chars { bytes } => self.characters(bytes.get()),
            Operation::Proc { depth, path } => self.proc(codes, *depth, path),
            Operation::Addr { depth, offset } => self.addr(codes, *depth, *offset),
            Operation::FileAt { file } => self.file_at(*file),
            Operation::Dup => self.dup(),
            Operation::Load => self.load(),
            Operation::Store => self.store(),
            Operation::Clear { cells } => self.clear(*cells),
            Operation::LoadMany { cells } => self.load_many(*cells),
            Operation::StoreMany { cells: _ } => self.store_many(),
            Operation::Offset { cells } => self.offset(*cells),
            Operation::Index { low, high, size } => self.index(*low, *high, *size),
            Operation::Follow => self.follow(),
            Operation::Active { offset, constants } => self.must_be_active(
                *offset,
                constants.as_slice(),
            ),
            Operation::Choose {
                offset,
                constant,
                constants,
                cells,
            } => self.select(*offset, *constant, constants.as_slice(), *cells),
            Operation::Tag { groups, cells } => self.tag(groups.as_slice(), *cells),
            Operation::Add => self.add(),
            Operation::Sub => self.subtract(),
            Operation::Mul => self.multiply(),
            Operation::Div => self.quotient(),
            Operation::Mod => self.modulus(),
            Operation::Neg => self.negate(),
            Operation::Odd => self.odd(),
            Operation::Not => self.negation(),
            Operation::And => self.both(),
            Operation::Or => self.either(),
            Operation::Range { low, high, fault } => self.range(*low, *high, *fault),
            Operation::Within { low, high } => self.within(*low, *high),
            Operation::Cmp { relation } => self.compare(*relation),
            Operation::Has => self.has(),
            Operation::One => self.with_one(),
            Operation::Span => self.with_span(),
            Operation::Union => self.join(),
            Operation::Meet => self.meet(),
            Operation::Less => self.less(),
            Operation::Jump { target } => {
                self.go_on_at(*target);
                Ok(())
            }
            Operation::False { target } => self.jump_if_false(*target),
            Operation::Case { arms } => self.jump_to_arm(arms.as_slice()),
            Operation::Leave { depth, label } => self.leave(codes, *depth, *label),
            Operation::Call {
                depth,
                path,
                operands,
                is_function: _,
            } => self.call(codes, *depth, path, *operands),
            Operation::CallBy {
                operands,
                is_function: _,
            } => self.call_by(codes, *operands),
            Operation::Return { cell } => self.end(*cell),
            Operation::New { cells } => self.make(*cells),
            Operation::Dispose => self.dispose(),
            Operation::File { operation } => self.play_file(*operation),
        }
    }
}
