use crate::judge::notation::{Piece, pieces};
use std::alloc::{AllocError, Global};

/// A token, as far as the grammar tells it from others.
#[derive(Clone, Copy, Debug, PartialEq, Eq)]
pub enum Terminal {
    Identifier,
    /// the identifier `forward`, which is a directive too
    Directive,
    Number,
    Text,
    /// the token with this spelling, by the first piece in which it stands
    Spelled(usize),
}

impl Terminal {
    /// Is this token one of those that may stand at a place for `wanted`?
    pub fn is(self, wanted: Terminal) -> bool {
        self == wanted || self == Terminal::Directive && wanted == Terminal::Identifier
    }
}

/// How a derivation goes on at a place of a grammar.
#[derive(Clone, Copy, Debug, PartialEq, Eq)]
pub enum Step {
    /// It reads the token, and goes on behind it.
    Read(Terminal),
    /// It goes on at the rule, and where that returns behind this place.
    Call,
    /// It goes on at one of the ways.
    Choose,
    /// It goes on where the rule was called.
    Return,
}

/// A place: a piece of the grammar's text, or its end.
#[derive(Drop)]
struct Place {
    step: Step,
    // the places at which it goes on; the first is past what may be left out
    ways: Vec<usize>,
}

/// A grammar in the notation of `docs/LANGUAGE.md`. A place is the index of a piece.
#[derive(Drop)]
pub struct Grammar {
    pieces: Vec<Piece>,
    places: Vec<Place>,
}

// Of a group, or of what a rule stands for.
#[derive(Drop)]
struct Group {
    bars: Vec<usize>,
    end: usize,
}

fn mark(pieces: &[Piece], at: usize) -> Option<char> {
    match pieces.get(at) {
        Some(Piece::Mark(mark)) => Some(*mark),
        _ => None,
    }
}

// Is it the name before `=`, or behind the last rule?
fn ends_rule(pieces: &[Piece], at: usize) -> bool {
    at >= pieces.len() || mark(pieces, at.saturating_add(1)) == Some('=')
}

// The group whose inside goes on at a place.
fn group_from(alloc: Global, pieces: &[Piece], from: usize) -> Result<Group, AllocError> {
    let mut bars = Vec::new(alloc);
    let mut depth = 0_usize;
    for at in from..pieces.len() {
        if ends_rule(pieces, at) {
            return Ok(Group { bars, end: at });
        }
        match mark(pieces, at) {
            Some('[' | '{' | '(') => depth = depth.saturating_add(1),
            Some(']' | '}' | ')') if depth == 0 => return Ok(Group { bars, end: at }),
            Some(']' | '}' | ')') => depth = depth.saturating_sub(1),
            Some('|') if depth == 0 => bars.push(at)?,
            _ => {}
        }
    }
    let end = pieces.len();
    Ok(Group { bars, end })
}

// The ways from the opening of a group: past it where it may be left out, and into it.
fn ways_in(alloc: Global, pieces: &[Piece], opening: usize) -> Result<Vec<usize>, AllocError> {
    let inside = opening.saturating_add(1);
    let group = group_from(alloc, pieces, inside)?;
    let mut ways = Vec::new(alloc);
    if matches!(mark(pieces, opening), Some('[' | '{')) {
        ways.push(group.end.saturating_add(1))?;
    }
    ways.push(inside)?;
    for bar in &group.bars {
        ways.push(bar.saturating_add(1))?;
    }
    Ok(ways)
}

// The opening of the repetition that ends at a place.
fn opening_of(alloc: Global, pieces: &[Piece], end: usize) -> Result<usize, AllocError> {
    for at in 0..end {
        if mark(pieces, at) == Some('{')
            && group_from(alloc, pieces, at.saturating_add(1))?.end == end
        {
            return Ok(at);
        }
    }
    Ok(end)
}

// The kind of tokens with this name, where it is no rule's.
fn kind(name: &str) -> Option<Terminal> {
    match name {
        "id" => Some(Terminal::Identifier),
        "forward" => Some(Terminal::Directive),
        "number" => Some(Terminal::Number),
        "string" => Some(Terminal::Text),
        _ => None,
    }
}

fn spelled(pieces: &[Piece], token: &str) -> Option<Terminal> {
    let is_it = |piece: &Piece| matches!(piece, Piece::Quoted(text) if text.as_str() == token);
    pieces.iter().position(is_it).map(Terminal::Spelled)
}

// The `=` of a rule.
fn rule(pieces: &[Piece], name: &str) -> Option<usize> {
    for (at, piece) in pieces.iter().enumerate() {
        if matches!(piece, Piece::Name(found) if found.as_str() == name) && ends_rule(pieces, at) {
            return Some(at.saturating_add(1));
        }
    }
    None
}

fn one(alloc: Global, way: usize) -> Result<Vec<usize>, AllocError> {
    Ok(vec![in alloc; way]?)
}

fn place_at(alloc: Global, pieces: &[Piece], at: usize) -> Result<Place, AllocError> {
    let none = Vec::new(alloc);
    let (step, ways) = match pieces.get(at) {
        _ if ends_rule(pieces, at) => (Step::Return, none),
        Some(Piece::Quoted(token)) => match spelled(pieces, token.as_str()) {
            Some(terminal) => (Step::Read(terminal), none),
            None => (Step::Choose, none),
        },
        Some(Piece::Name(name)) => match (kind(name.as_str()), rule(pieces, name.as_str())) {
            (Some(terminal), _) => (Step::Read(terminal), none),
            (None, Some(rule)) => (Step::Call, one(alloc, rule)?),
            (None, None) => (Step::Choose, none),
        },
        Some(Piece::Mark('=' | '[' | '{' | '(')) => (Step::Choose, ways_in(alloc, pieces, at)?),
        Some(Piece::Mark('|')) => {
            let behind = group_from(alloc, pieces, at.saturating_add(1))?.end;
            (Step::Choose, one(alloc, behind)?)
        }
        Some(Piece::Mark('}')) => (Step::Choose, one(alloc, opening_of(alloc, pieces, at)?)?),
        _ => (Step::Choose, one(alloc, at.saturating_add(1))?),
    };
    Ok(Place { step, ways })
}

impl Grammar {
    /// The grammar with this text. Its first rule is that of the sentences.
    pub fn new(alloc: Global, text: &str) -> Result<Grammar, AllocError> {
        let pieces = pieces(alloc, text)?;
        let mut places = Vec::new(alloc);
        for at in 0..pieces.len() {
            places.push(place_at(alloc, pieces.as_slice(), at)?)?;
        }
        Ok(Grammar { pieces, places })
    }

    /// The first rule's place.
    pub fn start(&self) -> usize {
        1
    }

    /// How a derivation goes on at a place.
    pub fn step(&self, at: usize) -> Step {
        match self.places.get(at) {
            Some(place) => place.step,
            None => Step::Return,
        }
    }

    /// The places at which it may go on then.
    pub fn ways(&self, at: usize) -> &[usize] {
        match self.places.get(at) {
            Some(place) => place.ways.as_slice(),
            None => &[],
        }
    }

    /// A token by its spelling, where it is one.
    pub fn terminal(&self, token: &str) -> Option<Terminal> {
        match token.as_bytes() {
            _ if token == "forward" => Some(Terminal::Directive),
            [b'\'', ..] => Some(Terminal::Text),
            [b'0'..=b'9', ..] => Some(Terminal::Number),
            [b'a'..=b'z', ..] => match spelled(self.pieces.as_slice(), token) {
                Some(terminal) => Some(terminal),
                None => Some(Terminal::Identifier),
            },
            _ => spelled(self.pieces.as_slice(), token),
        }
    }

    /// A spelling of a token.
    pub fn spelling(&self, terminal: Terminal) -> &str {
        match terminal {
            Terminal::Identifier => "a",
            Terminal::Directive => "forward",
            Terminal::Number => "1",
            Terminal::Text => "'x'",
            Terminal::Spelled(at) => match self.pieces.get(at) {
                Some(Piece::Quoted(text)) => text.as_str(),
                _ => "",
            },
        }
    }
}
