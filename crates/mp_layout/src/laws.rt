// What the definitions of sizes promise: each function's contract is one law of them.
ghost use Rattle.std.specs.Prelude.{◌≡◌, ◌+◌, ◌<◌, ◌≤◌, ◌++◌, ◌∷◌, [], ℕ, Bool, List, Option, Some, None, length, sum};
ghost use Rattle.mp_base.specs.declared.limits.TheConstants.{CELL_LIMIT};
ghost use Rattle.mp_tables.specs.declared.types.Bounds.{Bounds};
ghost use Rattle.mp_tables.specs.declared.types.ArrayShape.{ArrayShape};
ghost use Rattle.mp_tables.specs.declared.types.RecordShape.{RecordShape};
ghost use Rattle.mp_tables.specs.declared.types.TypeId.{TypeId};
ghost use Rattle.mp_tables.specs.declared.types.Shape.TheVariants as shapes;
ghost use Rattle.mp_tables.specs.declared.types.Shape.{Shape};
ghost use Rattle.mp_tables.specs.Sizes.{cells_of, offsets, saturated, sum_of};
ghost use Rattle.mp_layout.specs.Layouts.{offset_of};
ghost use Rattle.mp_layout.specs.Laws.{ArraysAreTheirComponents, EachOffsetIsTheSumBefore, OffsetsAscend, PartsStandApart, PartsStandWithin, CountsValues, HasFieldAt};

/// What is counted is the sum of the sizes, or one more than the limit where that is passed.
pub fn what_is_counted_is_the_sum()
    ensures within { (sizes : List ℕ) → sum sizes ≤ CELL_LIMIT → sum_of sizes ≡ sum sizes }
    ensures past { (sizes : List ℕ) → CELL_LIMIT < sum sizes → sum_of sizes ≡ CELL_LIMIT + 1 }
{}

/// Sizes can be counted in pieces.
pub fn sums_of_pieces()
    ensures { (first second : List ℕ) → sum_of (first ++ second) ≡ saturated (sum_of first + sum_of second) }
{}

/// There is one offset a size: the sum of the sizes before it.
pub fn offsets_are_sums()
    ensures length { (sizes : List ℕ) → length (offsets sizes) ≡ length sizes }
    ensures sums { (sizes : List ℕ) → EachOffsetIsTheSumBefore sizes }
    ensures ascend { (sizes : List ℕ) → OffsetsAscend sizes }
{}

/// What is added behind stands behind all before it, and moves nothing.
pub fn what_is_added_stands_behind()
    ensures { (sizes : List ℕ) (n : ℕ) → offsets (sizes ++ n ∷ []) ≡ offsets sizes ++ sum_of sizes ∷ [] }
{}

/// Where there are no more cells than a program may have, no two parts have a cell in common, and each part has its cells.
pub fn parts_stand_apart()
    ensures apart { (sizes : List ℕ) → sum sizes ≤ CELL_LIMIT → PartsStandApart sizes }
    ensures within { (sizes : List ℕ) → sum sizes ≤ CELL_LIMIT → PartsStandWithin sizes }
{}

/// An array has the cells of its components, one for each value of its index type (ISO 7185, 6.4.3.2).
pub fn arrays_are_their_components()
    ensures { ArraysAreTheirComponents }
{}

/// A scalar, a set and a pointer have one cell. A text file has two: the file and its buffer. A character-string has one a
/// character. An array and a record have what was counted of their parts.
pub fn types_have_cells()
    ensures range { (values : Bounds) → cells_of (shapes.Range values) ≡ 1 }
    ensures enumeration { (names : List (List ℕ)) → cells_of (shapes.Names names) ≡ 1 }
    ensures set { (packed : Option Bool) (base : Option Bounds) → cells_of (shapes.SetOf packed base) ≡ 1 }
    ensures pointer { (domain : Option TypeId) → cells_of (shapes.Ptr domain) ≡ 1 }
    ensures text { cells_of shapes.Text ≡ 2 }
    ensures string { (n : ℕ) → cells_of (shapes.Str n) ≡ n }
    ensures array { (a : ArrayShape) → cells_of (shapes.Arr a) ≡ a.cells }
    ensures record_type { (r : RecordShape) → cells_of (shapes.Rec r) ≡ r.cells }
{}

/// The values of a type are those from the least to the greatest.
pub fn values_are_counted()
    ensures { (bounds : Bounds) → CountsValues bounds }
{}

/// The offset that is found is one of a field of this name, and none is found only where there is no such field.
pub fn fields_are_found()
    ensures found { (name : List ℕ) (shape : Shape) (offset : ℕ) → offset_of name shape ≡ Some offset → HasFieldAt name shape offset }
    ensures absent { (name : List ℕ) (shape : Shape) (offset : ℕ) → offset_of name shape ≡ None → HasFieldAt name shape offset → ⊥ }
{}
