use crate::judge::grammar::{Grammar, Step, Terminal};
use std::alloc::{AllocError, Global};

/// The places at which a derivation goes on: the last one next, and each other one where a rule returns. Where there is
/// none, the derivation is at its end.
pub type Stack = Vec<usize>;

/// All derivations that begin with some tokens, each by its stack.
#[derive(Drop)]
pub struct Stacks {
    items: Vec<Stack>,
}

// The stack with its last place replaced by others.
fn moved(stack: &Stack, places: &[usize]) -> Result<Stack, AllocError> {
    let mut moved = stack.clone()?;
    moved.pop();
    moved.extend_from_slice(places)?;
    Ok(moved)
}

impl Grammar {
    // One step of a derivation that reads no token: each stack that may come of it is left open. A stack at a token or
    // at the end is found.
    fn unfold(
        &self,
        stack: Stack,
        open: &mut Vec<Stack>,
        found: &mut Vec<Stack>,
    ) -> Result<(), AllocError> {
        let at = stack.last().copied();
        match (at, at.map(|at| self.step(at))) {
            (Some(at), Some(Step::Call)) => {
                for way in self.ways(at) {
                    open.push(moved(&stack, &[at.saturating_add(1), *way])?)?;
                }
            }
            (Some(at), Some(Step::Choose)) => {
                for way in self.ways(at) {
                    open.push(moved(&stack, &[*way])?)?;
                }
            }
            (Some(_), Some(Step::Return)) => open.push(moved(&stack, &[])?)?,
            _ => {
                if !found.contains(&stack) {
                    found.push(stack)?;
                }
            }
        }
        Ok(())
    }

    // Each derivation taken to its next token, or to its end. No rule begins with itself, so that this ends.
    fn unfold_all(&self, alloc: Global, mut open: Vec<Stack>) -> Result<Stacks, AllocError> {
        let mut items = Vec::new(alloc);
        for _step in 0..u64::MAX {
            let Some(stack) = open.pop() else {
                break;
            };
            self.unfold(stack, &mut open, &mut items)?;
        }
        Ok(Stacks { items })
    }

    /// The derivations of all sentences.
    pub fn stacks(&self, alloc: Global) -> Result<Stacks, AllocError> {
        let mut open = Vec::new(alloc);
        open.push(vec![in alloc; self.start()]?)?;
        self.unfold_all(alloc, open)
    }

    /// Those of the derivations that go on with a token, behind it.
    pub fn behind(
        &self,
        alloc: Global,
        stacks: &Stacks,
        token: Terminal,
    ) -> Result<Stacks, AllocError> {
        let mut open = Vec::new(alloc);
        for stack in &stacks.items {
            let Some(at) = stack.last() else {
                continue;
            };
            if matches!(self.step(*at), Step::Read(wanted) if token.is(wanted)) {
                open.push(moved(stack, &[at.saturating_add(1)])?)?;
            }
        }
        self.unfold_all(alloc, open)
    }

    /// Adds tokens to a text with which the derivation comes to its end, each with a blank before it: always by the
    /// first way.
    pub fn add_ending(&self, mut stack: Stack, text: &mut String) -> Result<(), AllocError> {
        for _step in 0..u64::MAX {
            let Some(at) = stack.pop() else {
                break;
            };
            match self.step(at) {
                Step::Read(token) => {
                    text.push(' ')?;
                    text.push_str(self.spelling(token))?;
                    stack.push(at.saturating_add(1))?;
                }
                Step::Call => {
                    stack.push(at.saturating_add(1))?;
                    stack.extend(self.ways(at).first().copied())?;
                }
                Step::Choose => stack.extend(self.ways(at).first().copied())?,
                Step::Return => {}
            }
        }
        Ok(())
    }
}

impl Stacks {
    /// Is there no derivation?
    pub fn is_empty(&self) -> bool {
        self.items.is_empty()
    }

    /// Is a derivation at its end?
    pub fn has_end(&self) -> bool {
        self.items.iter().any(|stack| stack.is_empty())
    }

    /// The stacks, one for each derivation.
    pub fn get(&self) -> &[Stack] {
        self.items.as_slice()
    }
}
