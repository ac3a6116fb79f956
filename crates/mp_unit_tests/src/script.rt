use mp_base::TextLines;
use mp_script::{Command, Lines, Verb, command};
use std::alloc::Global;
use std::fmt::Write;
use std::test::Fail;

// The word of a verb, and its numbers.
fn parts(verb: &Verb) -> (&'static str, [Option<u32>; 3]) {
    match verb {
        Verb::Nothing => ("nothing", [None, None, None]),
        Verb::Insert { after, count } => ("insert", [Some(*after), Some(*count), None]),
        Verb::Delete { first, last } => ("delete", [Some(*first), Some(*last), None]),
        Verb::Replace { first, last, count } => {
            ("replace", [Some(*first), Some(*last), Some(*count)])
        }
        Verb::Sub {
            line,
            column,
            count,
        } => ("sub", [Some(*line), Some(*column), Some(*count)]),
        Verb::Back { version } => ("back", [Some(*version), None, None]),
        Verb::Text { version } => ("text", [*version, None, None]),
        Verb::List { version } => ("list", [*version, None, None]),
        Verb::Ready => ("ready", [None, None, None]),
        Verb::Input { count } => ("input", [Some(*count), None, None]),
        Verb::Break { line } => ("break", [Some(*line), None, None]),
        Verb::Clear { line } => ("clear", [Some(*line), None, None]),
        Verb::Run { steps } => ("run", [*steps, None, None]),
        Verb::Go { steps } => ("go", [*steps, None, None]),
        Verb::Step { steps } => ("step", [*steps, None, None]),
        Verb::Show { .. } => ("show", [None, None, None]),
        Verb::Chain => ("where", [None, None, None]),
        Verb::Kill => ("kill", [None, None, None]),
        Verb::Quit => ("quit", [None, None, None]),
    }
}

// A verb with its numbers or its access.
fn write_verb(out: &mut String, verb: &Verb) -> Result<(), Fail> {
    let (word, numbers) = parts(verb);
    out.push_str(word)?;
    for number in numbers {
        if let Some(number) = number {
            write!(out, " {number}")?;
        }
    }
    if let Verb::Show { access } = verb {
        write!(out, " <{}>", str::from_utf8(access.get())?)?;
    }
    Ok(())
}

// The verb of a command, the number of lines that it wants and the lines that it has.
fn write_command(out: &mut String, command: &Command) -> Result<(), Fail> {
    write_verb(out, &command.verb)?;
    if command.wants != 0 {
        write!(out, ", wants {}", command.wants)?;
    }
    for line in command.lines.get() {
        write!(out, ", has {}", str::from_utf8(line.get())?)?;
    }
    Ok(())
}

// The commands of these lines, each in brackets.
fn commands_of(alloc: Global, lines: &TextLines) -> Result<String, Fail> {
    let mut out = String::new(alloc);
    for line in lines.get() {
        write!(out, "[")?;
        match command(alloc, line) {
            Ok(command) => write_command(&mut out, &command)?,
            Err(why) => write!(out, "{why}")?,
        }
        write!(out, "]")?;
    }
    Ok(out)
}

// The command of one line.
fn read(alloc: Global, line: &str) -> Result<String, Fail> {
    let mut lines = Lines::new(alloc);
    lines.feed(line.as_bytes())?;
    commands_of(alloc, &lines.feed(b"\n")?)
}

/// A line, and the command that it means.
type Row = (&'static str, &'static str);

/// Each form of a command.
const FORMS: &[Row] = &[
    ("insert 0 3", "[insert 0 3, wants 3]"),
    ("insert 0 0", "[insert 0 0]"),
    ("delete 1 2", "[delete 1 2]"),
    ("replace 1 2 4", "[replace 1 2 4, wants 4]"),
    ("sub 1 2 3", "[sub 1 2 3, wants 1]"),
    ("back 7", "[back 7]"),
    ("text", "[text]"),
    ("text 2", "[text 2]"),
    ("list", "[list]"),
    ("list 3", "[list 3]"),
    ("ready", "[ready]"),
    ("input 5", "[input 5, wants 5]"),
    ("break 9", "[break 9]"),
    ("clear 9", "[clear 9]"),
    ("run", "[run]"),
    ("run 10", "[run 10]"),
    ("go", "[go]"),
    ("go 10", "[go 10]"),
    ("step", "[step]"),
    ("step 10", "[step 10]"),
    ("show x", "[show <x>]"),
    ("where", "[where]"),
    ("kill", "[kill]"),
    ("quit", "[quit]"),
];

/// Spaces, tabs and one byte 13 at the end are no words.
const BLANKS: &[Row] = &[
    ("", "[nothing]"),
    ("\r", "[nothing]"),
    (" \t ", "[nothing]"),
    (" \t\r", "[nothing]"),
    ("\tinsert \t 1\t2 ", "[insert 1 2, wants 2]"),
    ("quit\r", "[quit]"),
    ("quit \r", "[quit]"),
    ("quit\r\r", "[bad command]"),
    ("quit\r ", "[bad command]"),
    ("\rquit", "[bad command]"),
    ("\u{c}quit", "[bad command]"),
    ("list\u{c}", "[bad command]"),
];

/// A number has one to nine digits.
const NUMBERS: &[Row] = &[
    ("back 007", "[back 7]"),
    ("back 000000000", "[back 0]"),
    ("input 999999999", "[input 999999999, wants 999999999]"),
    ("back 0000000001", "[bad command]"),
    ("back 1000000000", "[bad command]"),
    ("back +1", "[bad command]"),
    ("back -1", "[bad command]"),
    ("back 1x", "[bad command]"),
    ("back 0x1", "[bad command]"),
    ("back /", "[bad command]"),
    ("back :", "[bad command]"),
];

/// What has no form is bad.
const BAD: &[Row] = &[
    ("frob", "[bad command]"),
    ("Quit", "[bad command]"),
    ("QUIT", "[bad command]"),
    ("quitt", "[bad command]"),
    ("qui", "[bad command]"),
    ("quit now", "[bad command]"),
    ("quit 1", "[bad command]"),
    ("chain", "[bad command]"),
    ("insert 1", "[bad command]"),
    ("insert 1 2 3", "[bad command]"),
    ("insert x 5", "[bad command]"),
    ("insert 1 x", "[bad command]"),
    ("insert1 2", "[bad command]"),
    ("delete 1", "[bad command]"),
    ("replace 1 2", "[bad command]"),
    ("replace 1 2 3 4", "[bad command]"),
    ("sub 1 2", "[bad command]"),
    ("sub 1 2 x", "[bad command]"),
    ("back", "[bad command]"),
    ("back 1 2", "[bad command]"),
    ("text x", "[bad command]"),
    ("list 1 2", "[bad command]"),
    ("ready 1", "[bad command]"),
    ("input", "[bad command]"),
    ("break", "[bad command]"),
    ("clear 1 2", "[bad command]"),
    ("run 1 2", "[bad command]"),
    ("go x", "[bad command]"),
    ("step -1", "[bad command]"),
    ("where 1", "[bad command]"),
    ("kill 1", "[bad command]"),
    ("1 insert", "[bad command]"),
];

/// An access is kept as it stands.
const ACCESSES: &[Row] = &[
    (
        " show \t A [ 1 , -2 ] . b ^\t ",
        "[show <A [ 1 , -2 ] . b ^>]",
    ),
    (
        "show a[1][2,+3,c,'x','''']",
        "[show <a[1][2,+3,c,'x','''']>]",
    ),
    ("show a(.1.)@", "[show <a(.1.)@>]"),
    (
        "show {the list} p^.next^{end}",
        "[show <{the list} p^.next^{end}>]",
    ),
    ("show a[2147483647]\r", "[show <a[2147483647]>]"),
];

/// What is no access is bad.
const NO_ACCESSES: &[Row] = &[
    ("show", "[bad command]"),
    ("show ", "[bad command]"),
    ("show 1", "[bad command]"),
    ("show{} x", "[bad command]"),
    ("show x y", "[bad command]"),
    ("show begin", "[bad command]"),
    ("show x.", "[bad command]"),
    ("show x.end", "[bad command]"),
    ("show x.1", "[bad command]"),
    ("show .x", "[bad command]"),
    ("show x[]", "[bad command]"),
    ("show x[1", "[bad command]"),
    ("show x[1,]", "[bad command]"),
    ("show x[1 2]", "[bad command]"),
    ("show x]", "[bad command]"),
    ("show x[-c]", "[bad command]"),
    ("show x[- -1]", "[bad command]"),
    ("show x['ab']", "[bad command]"),
    ("show x[-'a']", "[bad command]"),
    ("show x[a.b]", "[bad command]"),
    ("show x[1..2]", "[bad command]"),
    ("show x[2147483648]", "[bad command]"),
    ("show x {", "[bad command]"),
    ("show x;", "[bad command]"),
    ("show x?", "[bad command]"),
];

#[test]
fn lines_mean_their_commands(rt: HostRuntime) -> Result<(), Fail> {
    let alloc = rt.alloc();
    for rows in [FORMS, BLANKS, NUMBERS, BAD, ACCESSES, NO_ACCESSES] {
        for (line, want) in rows {
            assert_eq!(rt; read(alloc, line)?.as_str(), *want);
        }
    }
    Ok(())
}

// `quit` in a line of this length, filled up with spaces, and what stands at its end.
fn long_line(alloc: Global, word: &str, len: usize, end: &str) -> Result<String, Fail> {
    let mut line = String::from_str(alloc, word)?;
    for _ in word.len()..len {
        line.push(' ')?;
    }
    line.push_str(end)?;
    Ok(line)
}

#[test]
fn a_line_has_at_most_255_bytes(rt: HostRuntime) -> Result<(), Fail> {
    let alloc = rt.alloc();
    for (word, len, end, want) in [
        ("quit", 255, "", "[quit]"),
        ("quit", 256, "", "[bad command]"),
        ("quit", 257, "", "[bad command]"),
        ("quit", 255, "\r", "[quit]"),
        ("quit", 256, "\r", "[bad command]"),
        ("", 255, "", "[nothing]"),
        ("", 256, "", "[bad command]"),
        ("", 255, "\r", "[nothing]"),
    ] {
        assert_eq!(rt;
            read(alloc, &long_line(alloc, word, len, end)?)?.as_str(),
            want
        );
    }
    Ok(())
}

// The first command of a script, with the lines that it takes.
fn first_command(alloc: Global, script: &[u8]) -> Result<Option<Command>, Fail> {
    let mut lines = Lines::new(alloc);
    let mut open = None;
    for line in lines.feed(script)?.into_vec() {
        match open.take() {
            None => open = command(alloc, &line).ok(),
            Some(command) => {
                let mut command: Command = command;
                if (command.lines.get().len() as u64) < u64::from(command.wants) {
                    command.take(line)?;
                }
                open = Some(command);
            }
        }
    }
    Ok(open)
}

#[test]
fn a_command_takes_lines_with_their_byte_13(rt: HostRuntime) -> Result<(), Fail> {
    let alloc = rt.alloc();
    let mut out = String::new(alloc);
    if let Some(command) = first_command(alloc, b"insert 0 2\na\r\n\n")? {
        write_command(&mut out, &command)?;
    }
    assert_eq!(rt; out.as_str(), "insert 0 2, wants 2, has a\r, has ");
    Ok(())
}

// The lines that a script's pieces give, each behind the number of the piece that ends it, and the last line.
fn lines_of_pieces(alloc: Global, pieces: &[&str]) -> Result<String, Fail> {
    let mut out = String::new(alloc);
    let mut lines = Lines::new(alloc);
    for (number, piece) in pieces.iter().enumerate() {
        for line in lines.feed(piece.as_bytes())?.get() {
            write!(out, "{number}:{} ", str::from_utf8(line.get())?)?;
        }
    }
    match lines.finish() {
        Some(line) => write!(out, "last:{}", str::from_utf8(line.get())?)?,
        None => write!(out, "none")?,
    }
    Ok(out)
}

#[test]
fn lines_come_in_whatever_pieces(rt: HostRuntime) -> Result<(), Fail> {
    let alloc = rt.alloc();
    for (pieces, want) in [
        (["", "", ""], "none"),
        (["ab\n", "c\n", ""], "0:ab 1:c none"),
        (["ab", "c\nd", "e"], "1:abc last:de"),
        (["a\n\nb\n", "\n", "c"], "0:a 0: 0:b 1: last:c"),
        (["a", "", "\n"], "2:a none"),
        (["ab\r", "\ncd\r\n", "\r"], "1:ab\r 1:cd\r last:\r"),
    ] {
        assert_eq!(rt; lines_of_pieces(alloc, &pieces)?.as_str(), want);
    }
    Ok(())
}
