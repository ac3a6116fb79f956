use crate::judge::errors::JudgeError;
use crate::judge::grammar::{Grammar, Terminal};
use crate::judge::parser::{Answer, parser_answer};
use crate::judge::stacks::Stacks;
use std::alloc::{AllocError, Global};

/// A token of an alphabet.
#[derive(Drop)]
struct Token<'a> {
    spelling: &'a str,
    terminal: Terminal,
}

/// Lists of tokens with the same first ones, and behind them at most so many of an alphabet.
#[derive(Drop)]
struct Family<'a> {
    first: &'a str,
    alphabet: Vec<Token<'a>>,
    most: usize,
}

/// Tokens with which a program begins.
#[derive(Drop)]
struct Beginning {
    text: String,
    // how many there are, and how many behind the family's first ones
    len: usize,
    own: usize,
    stacks: Stacks,
}

/// How many lists there are of each kind.
#[derive(Drop)]
struct Counts {
    programs: u64,
    beginnings: u64,
    wrong: u64,
    behind: u64,
}

fn tokens<'a>(
    alloc: Global,
    grammar: &Grammar,
    line: &'a str,
) -> Result<Vec<Token<'a>>, JudgeError> {
    let mut tokens = Vec::new(alloc);
    for spelling in line.split_ascii_whitespace() {
        let Some(terminal) = grammar.terminal(spelling) else {
            return Err(JudgeError::NoFamily("an unknown token"));
        };
        tokens.push(Token { spelling, terminal })?;
    }
    Ok(tokens)
}

// The text with one token more.
fn with_token(alloc: Global, text: &str, token: &str) -> Result<String, AllocError> {
    format!(in alloc; "{text} {token}")
}

/// Judges the parser by a grammar.
#[derive(Drop)]
struct Judge {
    alloc: Global,
    grammar: Grammar,
}

impl Judge {
    // The parser must answer this to the text.
    fn expect(&self, text: &str, expected: Answer) -> Result<(), JudgeError> {
        let found = parser_answer(self.alloc, text)?;
        if found == expected {
            return Ok(());
        }
        let alloc = self.alloc;
        Err(JudgeError::Disagreement(format!(in alloc; "{text}: {found:?} is not {expected:?}")?))
    }

    // The first tokens of all lists of the family.
    fn shortest(&self, family: &Family<'_>) -> Result<Beginning, JudgeError> {
        let mut stacks = self.grammar.stacks(self.alloc)?;
        let first = tokens(self.alloc, &self.grammar, family.first)?;
        for token in &first {
            stacks = self.grammar.behind(self.alloc, &stacks, token.terminal)?;
        }
        Ok(Beginning {
            text: String::from_str(self.alloc, family.first)?,
            len: first.len(),
            own: 0,
            stacks,
        })
    }

    // The list with one token more. No stack is left where no program begins with it.
    fn longer(&self, beginning: &Beginning, token: &Token<'_>) -> Result<Beginning, JudgeError> {
        Ok(Beginning {
            text: with_token(self.alloc, beginning.text.as_str(), token.spelling)?,
            len: beginning.len.saturating_add(1),
            own: beginning.own.saturating_add(1),
            stacks: self
                .grammar
                .behind(self.alloc, &beginning.stacks, token.terminal)?,
        })
    }

    // A beginning is a program or ends too early, and with the ending of each derivation it is a program.
    fn judge_beginning(
        &self,
        beginning: &Beginning,
        counts: &mut Counts,
    ) -> Result<(), JudgeError> {
        let text = beginning.text.as_str();
        if beginning.stacks.has_end() {
            counts.programs = counts.programs.saturating_add(1);
            self.expect(text, Answer::Program)?;
        } else {
            counts.beginnings = counts.beginnings.saturating_add(1);
            self.expect(text, Answer::Error(202, beginning.len))?;
        }
        for stack in beginning.stacks.get() {
            let mut whole = String::from_str(self.alloc, text)?;
            self.grammar.add_ending(stack.clone()?, &mut whole)?;
            self.expect(whole.as_str(), Answer::Program)?;
        }
        Ok(())
    }

    // A beginning and a token with which no program begins, and any one token more.
    fn judge_wrong(
        &self,
        family: &Family<'_>,
        beginning: &Beginning,
        text: &str,
        counts: &mut Counts,
    ) -> Result<(), JudgeError> {
        let code = if beginning.stacks.has_end() {
            counts.behind = counts.behind.saturating_add(1);
            205
        } else {
            counts.wrong = counts.wrong.saturating_add(1);
            201
        };
        let expected = Answer::Error(code, beginning.len);
        self.expect(text, expected)?;
        if beginning.own.saturating_add(1) >= family.most {
            return Ok(());
        }
        for token in &family.alphabet {
            let text = with_token(self.alloc, text, token.spelling)?;
            self.expect(text.as_str(), expected)?;
        }
        Ok(())
    }

    // A beginning, and each list with one token more; those that are beginnings too are left open.
    fn judge_continuations(
        &self,
        family: &Family<'_>,
        beginning: &Beginning,
        open: &mut Vec<Beginning>,
        counts: &mut Counts,
    ) -> Result<(), JudgeError> {
        self.judge_beginning(beginning, counts)?;
        if beginning.own >= family.most {
            return Ok(());
        }
        for token in &family.alphabet {
            let longer = self.longer(beginning, token)?;
            if longer.stacks.is_empty() {
                self.judge_wrong(family, beginning, longer.text.as_str(), counts)?;
            } else {
                open.push(longer)?;
            }
        }
        Ok(())
    }

    fn judge_family(&self, family: &Family<'_>) -> Result<Counts, JudgeError> {
        let mut counts = Counts {
            programs: 0,
            beginnings: 0,
            wrong: 0,
            behind: 0,
        };
        let mut open = Vec::new(self.alloc);
        open.push(self.shortest(family)?)?;
        for _beginning in 0..u64::MAX {
            let Some(beginning) = open.pop() else {
                break;
            };
            self.judge_continuations(family, &beginning, &mut open, &mut counts)?;
        }
        Ok(counts)
    }

    // The family with these lines behind its name.
    fn answer(&self, lines: &[&str]) -> Result<Counts, JudgeError> {
        let [_, first, alphabet, most] = lines else {
            return Err(JudgeError::NoFamily("it has four lines"));
        };
        let Ok(most) = most.parse::<usize>() else {
            return Err(JudgeError::NoFamily("its last line is a number"));
        };
        let alphabet = tokens(self.alloc, &self.grammar, alphabet)?;
        self.judge_family(&Family {
            first,
            alphabet,
            most,
        })
    }

    // Adds the lines of a family, and behind them its answer.
    fn add_answer(&self, text: &str, out: &mut String) -> Result<(), AllocError> {
        let lines: Vec<&str> = text.lines().collect(self.alloc)?;
        out.push_str(text)?;
        match self.answer(lines.as_slice()) {
            Ok(counts) => writeln!(
                out,
                "programs {}, beginnings {}, 201 {}, 205 {}",
                counts.programs, counts.beginnings, counts.wrong, counts.behind
            ),
            Err(JudgeError::Memory) => Err(AllocError),
            Err(error) => writeln!(out, "{error}"),
        }
    }
}

/// The answer to each family of an input, which begins with the grammar. Each ends with a line `=====`.
pub fn answers(alloc: Global, input: &str) -> Result<String, AllocError> {
    const END: &str = "=====\n";
    let mut out = String::new(alloc);
    let Some((grammar, families)) = input.split_once(END) else {
        return Ok(out);
    };
    let grammar = Grammar::new(alloc, grammar)?;
    let judge = Judge { alloc, grammar };
    for family in families.split_terminator(END) {
        judge.add_answer(family, &mut out)?;
        out.push_str(END)?;
    }
    Ok(out)
}
