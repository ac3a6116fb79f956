// Relations of numbers, sets, pointers and strings (ISO 7185, 6.7.2.5).
ghost use Rattle.std.specs.Prelude.{◌≡◌, false, int_lt, is_some, ℕ};
ghost use Rattle.mp_machine.specs.Blocks.{Path as Steps};
ghost use Rattle.mp_machine.specs.Numbers.{same_number};
ghost use Rattle.mp_machine.specs.Strings.{character_of};
ghost use Rattle.mp_machine.specs.Shown.{Agrees, Fits, NoMemory, Unmoved, state_of};
ghost use Rattle.mp_machine.specs.ValueRows as value;

use crate::operands::Operand;
use crate::processor::{Processor, Stop};
use mp_code::Relation;
use mp_memory::{Cell, MemberSet};

// Whether the relation stands between two values, the first of which comes before the second, or is the same.
fn holds(relation: Relation, before: bool, same: bool) -> bool
    ensures { result ≡ value.holds relation before same }
{
    match relation {
        Relation::Equal => same,
        Relation::NotEqual => !same,
        Relation::Less => before,
        Relation::LessOrEqual => before || same,
        Relation::Greater => !(before || same),
        Relation::GreaterOrEqual => !before,
    }
}

fn holds_of_numbers(relation: Relation, i: i64, j: i64) -> bool
    ensures { result ≡ value.holds relation (int_lt i j) (same_number i j) }
{
    holds(relation, i < j, i == j)
}

fn holds_of_sets(relation: Relation, a: &MemberSet, b: &MemberSet) -> bool
    ensures { result ≡ value.holds_of_sets relation a.now b.now }
{
    match relation {
        Relation::GreaterOrEqual => b.within(a),
        Relation::LessOrEqual => a.within(b),
        _ => holds(relation, false, a.within(b) && b.within(a)),
    }
}

// The number of a character, None where the cell is undefined.
pub(crate) fn character(cell: &Cell) -> Option<u64>
    ensures { result ≡ character_of cell.now }
{
    match cell {
        Cell::Int(n) => {
            if *n < 0 {
                return None;
            }
            Some(*n as u64)
        }
        _ => None,
    }
}

// Whether all cells are characters.
pub(crate) fn are_characters(cells: &[Cell]) -> bool
    ensures { result ≡ is_some (value.characters_of cells.now) }
{
    'cells: for i in 0..cells.len() {
        if character(&cells[i]).is_none() {
            return false;
        }
    }
    true
}

// Whether the relation stands between two strings, None where a character is undefined.
fn compare_strings(relation: Relation, xs: &[Cell], ys: &[Cell]) -> Option<bool>
    ensures { result ≡ value.string_relation relation (value.characters_of xs.now) (value.characters_of ys.now) }
{
    if !are_characters(xs) {
        return None;
    }
    if !are_characters(ys) {
        return None;
    }
    let mut i = 0;
    'characters: while i < xs.len() && i < ys.len() {
        let Some(x) = character(&xs[i]) else {
            return None;
        };
        let Some(y) = character(&ys[i]) else {
            return None;
        };
        if x != y {
            return Some(holds(relation, x < y, false));
        }
        i += 1;
    }
    Some(holds(relation, false, xs.len() == ys.len()))
}

impl Processor {
    /// x y : 0 or 1, for numbers, sets and pointers
    #[inline(always)]
    fn compare_cells(&mut self, relation: Relation, x: Cell, y: Cell) -> Result<(), Stop>
        requires { Fits 1 self.old }
        ensures row { (paths : ℕ → Steps) → Agrees (value.compare_cells relation x y (state_of paths self.old)) result (state_of paths self.new) }
        ensures kept { Unmoved self.old self.new }
        ensures memory { NoMemory result }
    {
        match (&x, &y) {
            (Cell::Int(i), Cell::Int(j)) => {
                self.put_truth(holds_of_numbers(relation, *i, *j));
                Ok(())
            }
            (Cell::Members(a), Cell::Members(b)) => {
                self.put_truth(holds_of_sets(relation, a, b));
                Ok(())
            }
            (Cell::Ptr(a), Cell::Ptr(b)) => {
                self.put_truth(holds(relation, false, *a == *b));
                Ok(())
            }
            _ => Err(Stop::Stuck),
        }
    }

    /// x y : 0 or 1, for numbers, sets, pointers or strings. Fault 9 for an undefined character.
    pub(crate) fn compare(&mut self, relation: Relation) -> Result<(), Stop>
        ensures row { (paths : ℕ → Steps) → Agrees (value.cmp relation (state_of paths self.old)) result (state_of paths self.new) }
        ensures kept { Unmoved self.old self.new }
        ensures memory { NoMemory result }
    {
        let y = self.take()?;
        let x = self.take()?;
        match (x, y) {
            (Operand::One(x), Operand::One(y)) => self.compare_cells(relation, x, y),
            (Operand::Block(xs), Operand::Block(ys)) => self.put_defined(compare_strings(
                relation,
                xs.get(),
                ys.get(),
            )),
            _ => Err(Stop::Stuck),
        }
    }

    fn put_defined(&mut self, holds: Option<bool>) -> Result<(), Stop>
        requires { Fits 1 self.old }
        ensures row { (paths : ℕ → Steps) → Agrees (value.put_defined holds (state_of paths self.old)) result (state_of paths self.new) }
        ensures kept { Unmoved self.old self.new }
        ensures memory { NoMemory result }
    {
        match holds {
            Some(holds) => {
                self.put_truth(holds);
                Ok(())
            }
            None => Err(Stop::Fault(9)),
        }
    }
}
