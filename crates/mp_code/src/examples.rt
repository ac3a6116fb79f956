// Examples of the shape of code: each function's contract is one.
ghost use Rattle.mp_code.specs.EffectExamples.{EffectsOfOperations, Successors};
ghost use Rattle.mp_code.specs.ShapeExamples.{Shapes};

/// What each operation takes and puts.
pub fn effects_of_operations()
    ensures { EffectsOfOperations }
{}

/// Where operations lead.
pub fn successors_of_operations()
    ensures { Successors }
{}

/// Codes that break one clause each, and the first index at which one fails.
pub fn shapes_example()
    ensures { Shapes }
{}
