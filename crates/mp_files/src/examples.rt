// Worked cases of the definitions: each function's contract is a table of them, found by computation.
ghost use Rattle.mp_files.specs.Examples.{EndsAreTold, FieldsAreWritten, FilesAreBegun, ItemsAreWritten, NumbersAreRead, PositionsAreMoved, RunsKeepTheLimit};

/// `eof`, `eoln` and what the buffer shows, in each state.
pub fn ends_are_told()
    ensures { EndsAreTold }
{}

/// `reset` and `rewrite` in each state.
pub fn files_are_begun()
    ensures { FilesAreBegun }
{}

/// `get` and `readln` in each state.
pub fn positions_are_moved()
    ensures { PositionsAreMoved }
{}

/// Integers that are read, and texts that hold none.
pub fn numbers_are_read()
    ensures { NumbersAreRead }
{}

/// What `write`, `writeln` and `page` write, in each state.
pub fn items_are_written()
    ensures { ItemsAreWritten }
{}

/// The limit on written bytes, and the two files that `reset` and `rewrite` leave as they are.
pub fn runs_keep_the_limit()
    ensures { RunsKeepTheLimit }
{}

/// Fields of `write` and their widths.
pub fn fields_are_written()
    ensures { FieldsAreWritten }
{}
