// One instruction on a file: its row of the table.
ghost use Rattle.std.specs.Prelude.{◌≡◌, ℕ};
ghost use Rattle.mp_machine.specs.Blocks.{Path as Steps};
ghost use Rattle.mp_machine.specs.FileRows.{file_row};
ghost use Rattle.mp_machine.specs.Shown.{Agrees, Unmoved, state_of};

use crate::processor::{Processor, Stop};
use mp_code::FileOperation;

impl Processor {
    /// The row of an operation on a file.
    pub(crate) fn play_file(&mut self, operation: FileOperation) -> Result<(), Stop>
        ensures row { (paths : ℕ → Steps) → Agrees (file_row operation (state_of paths self.old)) result (state_of paths self.new) }
        ensures kept { Unmoved self.old self.new }
    {
        match operation {
            FileOperation::Eof => self.eof(),
            FileOperation::Eoln => self.eoln(),
            FileOperation::Get => self.get(),
            FileOperation::Put => self.put_buffer(),
            FileOperation::Reset => self.reset(),
            FileOperation::Rewrite => self.rewrite(),
            FileOperation::ReadLine => self.read_line(),
            FileOperation::WriteLine => self.write_line(),
            FileOperation::Page => self.page(),
            FileOperation::ReadInt => self.read_int(),
            FileOperation::ReadChar => self.read_char(),
            FileOperation::WriteInt => self.write_integer(),
            FileOperation::WriteChar => self.write_character(),
            FileOperation::WriteBool => self.write_truth(),
            FileOperation::WriteChars => self.write_characters(),
        }
    }
}
