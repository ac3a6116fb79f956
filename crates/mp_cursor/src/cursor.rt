#![tactic(auto, unfolding(crate::specs::Parsers::next_token, crate::specs::Parsers::behind, crate::specs::Parsers::left, crate::specs::Parsers::wrong, crate::specs::Parsers::too_deep, crate::specs::Parsers::too_many, crate::specs::Parsers::expect, crate::specs::Parsers::opening, crate::specs::Parsers::counted))]

ghost use Rattle.std.specs.Prelude.{◌≡◌, ◌≢◌, ◌+◌, ◌-◌, ◌<◌, ◌≤◌, IfErr, IfOk, bytes_eq, drop, if◌then◌else◌, length};
ghost use Rattle.mp_ast.specs.Programs.{kinds_of, start_of};
ghost use Rattle.mp_cursor.specs.Nexts.{is};
ghost use Rattle.mp_cursor.specs.declared.failure.Failure.TheVariants as failure;
ghost use Rattle.mp_cursor.specs.Parsers as spec;
ghost use Rattle.mp_cursor.specs.Parsers.{Reads};

use crate::failure::Failure;
use crate::next::{Next, class, same};
use mp_ast::{CharacterString, Identifier, Number, Token, TokenKind};
use mp_base::{Bytes, DECLARATION_LIMIT, Name, TEXT_LIMIT};
use std::alloc::Global;
use std::marker::Model;

/// A place in a list of tokens, with the ordinals of the block in it and the number of declarations before it.
#[derive(Drop)]
pub struct Cursor<'a> {
    rest: &'a [Token],
    at: u32,
    declared: u32,
}

impl<'a> Model for Cursor<'a> {
    ghost use Rattle.mp_ast.specs.Rules.{Input};

    ghost Value = { Input };

    ghost use Rattle.mp_cursor.specs.CursorView.{input_of, IsSmall};

    ghost view = { input_of };

    ghost invariant = { IsSmall };
}

fn is_spelled(name: &Name, spelling: &str) -> bool
    ensures { result ≡ bytes_eq name.now spelling.now }
{
    name.get() == spelling.as_bytes()
}

impl<'a> Cursor<'a> {
    /// The start of the tokens.
    pub fn new(tokens: &'a [Token]) -> Cursor<'a>
        requires { length tokens.now ≤ TEXT_LIMIT }
        ensures { result ≡ start_of (kinds_of tokens.now) }
    {
        Cursor {
            rest: tokens,
            at: 0,
            declared: 0,
        }
    }

    /// The same place, to go on from it twice.
    pub fn copy(&self) -> Cursor<'a>
        ensures { result ≡ self.now }
    {
        Cursor {
            rest: self.rest,
            at: self.at,
            declared: self.declared,
        }
    }

    /// What the next token is.
    pub fn next(&self) -> Next
        ensures { result ≡ spec.next_token self.now }
    {
        match self.rest {
            [] => Next::End,
            [first, ..] => class(&first.kind),
        }
    }

    /// Whether the next token is this one.
    pub fn sees(&self, next: Next) -> bool
        ensures { result ≡ is next (spec.next_token self.now) }
    {
        same(next, self.next())
    }

    /// How many tokens there are from here on.
    pub fn left(&self) -> usize
        ensures { result ≡ spec.left self.now }
    {
        self.rest.len()
    }

    /// The ordinal of the next token.
    pub fn at(&self) -> u32
        ensures at { result ≡ self.now.at }
        ensures small { result ≤ TEXT_LIMIT }
    {
        self.at
    }

    /// Goes past so many tokens, whatever they are; none of them is counted as a declaration.
    pub fn skip(&mut self, tokens: usize)
        requires { tokens ≤ length self.old.rest }
        ensures at { self.new.at ≡ self.old.at + tokens }
        ensures rest { self.new.rest ≡ drop tokens self.old.rest }
        ensures declared { self.new.declared ≡ self.old.declared }
    {
        self.rest = &self.rest[tokens..];
        self.at += tokens as u32;
    }

    /// Refuses the next token, or the end.
    pub fn wrong(&self) -> Failure
        ensures { result ≡ spec.wrong self.now }
    {
        Failure::Wrong(self.left())
    }

    /// Refuses the next token since too much stands around it.
    pub fn too_deep(&self) -> Failure
        ensures { result ≡ spec.too_deep self.now }
    {
        Failure::TooDeep(self.left())
    }

    // Goes past the next token, where there is one, and answers its ordinal.
    fn take(&mut self) -> u32
        ensures at { result ≡ self.old.at }
        ensures behind { self.new ≡ spec.behind self.old }
    {
        let at = self.at;
        if let [_, rest @ ..] = self.rest {
            self.rest = rest;
            self.at = at + 1;
        }
        at
    }

    /// Goes past the next token where it is this one, and says whether it was.
    pub fn takes(&mut self, next: Next) -> bool
        ensures seen { result ≡ is next (spec.next_token self.old) }
        ensures behind { self.new ≡ (if result then spec.behind self.old else self.old) }
    {
        let seen = self.sees(next);
        if seen {
            self.take();
        }
        seen
    }

    /// Goes past the next token, which is to be this one, and answers its ordinal.
    pub fn expect(&mut self, next: Next) -> Result<u32, Failure>
        ensures reads { Reads (spec.expect next self.old) result self.new }
        ensures memory { IfErr result (λ e. e ≢ failure.Memory) }
    {
        if self.sees(next) {
            Ok(self.take())
        } else {
            Err(self.wrong())
        }
    }

    /// Goes past the next token, which is to be this one and opens, and answers its ordinal. `room` is how many more
    /// openers may stand open before it.
    pub fn open(&mut self, next: Next, room: usize) -> Result<u32, Failure>
        ensures reads { Reads (spec.opening room next self.old) result self.new }
        ensures room { IfOk result (λ at. 0 < room) }
        ensures memory { IfErr result (λ e. e ≢ failure.Memory) }
    {
        if !self.sees(next) {
            return Err(self.wrong());
        }
        if room == 0 {
            return Err(self.too_deep());
        }
        Ok(self.take())
    }

    /// Counts one more declaration, of at most `DECLARATION_LIMIT` with the program.
    pub fn declare(&mut self) -> Result<(), Failure>
        ensures reads { Reads (spec.counted (DECLARATION_LIMIT - 1) self.old) result self.new }
        ensures memory { IfErr result (λ e. e ≢ failure.Memory) }
    {
        if self.declared >= DECLARATION_LIMIT as u32 - 1 {
            return Err(Failure::TooMany(self.left()));
        }
        self.declared += 1;
        Ok(())
    }

    /// Goes past an identifier.
    #[tactic(auto, unfolding(crate::specs::Parsers::identifier))]
    pub fn identifier(&mut self) -> Result<Identifier, Failure>
        ensures { Reads (spec.identifier self.old) result self.new }
    {
        let at = self.at;
        match self.rest {
            [
                Token {
                    kind: TokenKind::Id(name),
                    ..
                },
                rest @ ..,
            ] => {
                let name = name.copy()?;
                self.rest = rest;
                self.at = at + 1;
                Ok(Identifier { at, name })
            }
            rest => Err(Failure::Wrong(rest.len())),
        }
    }

    /// Goes past the identifier of this spelling in lower case, and answers its ordinal.
    #[tactic(auto, unfolding(crate::specs::Parsers::directive))]
    pub fn directive(&mut self, spelling: &str) -> Result<u32, Failure>
        ensures reads { Reads (spec.directive spelling.now self.old) result self.new }
        ensures memory { IfErr result (λ e. e ≢ failure.Memory) }
    {
        let at = self.at;
        let left = self.rest.len();
        match self.rest {
            [
                Token {
                    kind: TokenKind::Id(name),
                    ..
                },
                rest @ ..,
            ] => {
                if !is_spelled(name, spelling) {
                    return Err(Failure::Wrong(left));
                }
                self.rest = rest;
                self.at = at + 1;
                Ok(at)
            }
            _ => Err(Failure::Wrong(left)),
        }
    }

    /// Goes past a number.
    #[tactic(auto, unfolding(crate::specs::Parsers::number))]
    pub fn number(&mut self) -> Result<Number, Failure>
        ensures reads { Reads (spec.number self.old) result self.new }
        ensures memory { IfErr result (λ e. e ≢ failure.Memory) }
    {
        let at = self.at;
        match self.rest {
            [
                Token {
                    kind: TokenKind::Number(value),
                    ..
                },
                rest @ ..,
            ] => {
                self.rest = rest;
                self.at = at + 1;
                Ok(Number { at, value: *value })
            }
            rest => Err(Failure::Wrong(rest.len())),
        }
    }

    /// Goes past a character-string.
    #[tactic(auto, unfolding(crate::specs::Parsers::character_string))]
    pub fn character_string(&mut self, alloc: Global) -> Result<CharacterString, Failure>
        ensures { Reads (spec.character_string self.old) result self.new }
    {
        let at = self.at;
        match self.rest {
            [
                Token {
                    kind: TokenKind::Text(characters),
                    ..
                },
                rest @ ..,
            ] => {
                let characters = Bytes::of(alloc, characters.get())?;
                self.rest = rest;
                self.at = at + 1;
                Ok(CharacterString { at, characters })
            }
            rest => Err(Failure::Wrong(rest.len())),
        }
    }

    /// Begins ordinals anew, and answers the one to go back to.
    pub fn restart(&mut self) -> u32
        ensures at { result ≡ self.old.at }
        ensures new { self.new ≡ record self.old { at = 0 } }
        ensures small { result + length self.old.rest ≤ TEXT_LIMIT }
    {
        let at = self.at;
        self.at = 0;
        at
    }

    /// Goes back to an ordinal.
    pub fn resume(&mut self, at: u32)
        requires { at + length self.old.rest ≤ TEXT_LIMIT }
        ensures { self.new ≡ record self.old { at = at } }
    {
        self.at = at;
    }
}
