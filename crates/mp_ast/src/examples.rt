// Examples of the grammar: each function's contract is, for one chapter, a list of tokens and its tree, and what has none.
ghost use Rattle.mp_ast.specs.Examples.{ExpressionExample, ElseExample, CaseExample, NoElseFollows, TypeExample};
ghost use Rattle.mp_ast.specs.Examples.{NoRoomForPacked, HeadingExample, ProgramExample, NoneInTheDeepest, EndsEarly};
ghost use Rattle.mp_ast.specs.Examples.{WrongFirstToken, OneTooDeep, OneTooMany, TooDeepAndTooMany, FollowsTheProgram};
ghost use Rattle.mp_ast.specs.declared.tokens.TokenKind.TheVariants.{Word, Symbol};
ghost use Rattle.mp_ast.specs.declared.words.WordSymbol.TheVariants as word;
ghost use Rattle.mp_ast.specs.declared.symbols.Symbol.TheVariants as symbol;
ghost use Rattle.mp_ast.specs.declared.expressions.Operator.TheVariants as operator;
ghost use Rattle.mp_ast.specs.ProductionExamples.{Relates, Adds, Multiplies, StringExample, NilExample, SignExample};
ghost use Rattle.mp_ast.specs.ProductionExamples.{NotExample, EmptySetExample, FunctionExample, ProcedureExample, GotoExample};
ghost use Rattle.mp_ast.specs.ProductionExamples.{CompoundExample, WhileExample, RepeatExample, ToExample, DowntoExample};
ghost use Rattle.mp_ast.specs.ProductionExamples.{WithExample, EnumerationExample, SignedSubrangeExample, SetExample};
ghost use Rattle.mp_ast.specs.ProductionExamples.{PackedSetExample, FileExample, PackedFileExample, PackedArrayExample};
ghost use Rattle.mp_ast.specs.ProductionExamples.{EmptyRecordExample, NoTagExample, ProceduralExample, NoResultExample};
ghost use Rattle.mp_ast.specs.ProductionExamples.{PartsExample};

/// A program with a forward declaration, a block in it, and the own tokens of both blocks.
pub fn program_example()
    ensures tree { ProgramExample }
    ensures none { NoneInTheDeepest }
{}

/// A type denoter: a packed record with an array, a variant part and a last `;`.
pub fn type_example()
    ensures tree { TypeExample }
    ensures none { NoRoomForPacked }
{}

/// A heading with variable parameters and a functional parameter.
pub fn heading_example()
    ensures { HeadingExample }
{}

/// Statements: an `else` behind two `if`s, and a labelled `case` statement with a last `;`.
pub fn statement_example()
    ensures alternative { ElseExample }
    ensures labelled { CaseExample }
    ensures none { NoElseFollows }
{}

/// An expression with a sign, selectors, parentheses, a relation and a set.
pub fn expression_example()
    ensures { ExpressionExample }
{}

/// The first error of a text without tokens, of one that begins with another token than `program`, of one with a
/// declaration that small limits forbid, and of one with a token behind its program.
pub fn first_error_example()
    ensures early { EndsEarly }
    ensures wrong { WrongFirstToken }
    ensures deep { OneTooDeep }
    ensures many { OneTooMany }
    ensures both { TooDeepAndTooMany }
    ensures after { FollowsTheProgram }
{}

/// Each operator, between two names.
pub fn each_operator()
    ensures equal { Relates (Symbol symbol.Equal) operator.Equal }
    ensures not_equal { Relates (Symbol symbol.NotEqual) operator.NotEqual }
    ensures less { Relates (Symbol symbol.Less) operator.Less }
    ensures less_or_equal { Relates (Symbol symbol.LessEqual) operator.LessOrEqual }
    ensures greater { Relates (Symbol symbol.Greater) operator.Greater }
    ensures greater_or_equal { Relates (Symbol symbol.GreaterEqual) operator.GreaterOrEqual }
    ensures in_operator { Relates (Word word.In) operator.In }
    ensures add { Adds (Symbol symbol.Plus) operator.Add }
    ensures subtract { Adds (Symbol symbol.Minus) operator.Subtract }
    ensures or_operator { Adds (Word word.Or) operator.Or }
    ensures multiply { Multiplies (Symbol symbol.Star) operator.Multiply }
    ensures div_operator { Multiplies (Word word.Div) operator.Div }
    ensures mod_operator { Multiplies (Word word.Mod) operator.Mod }
    ensures and_operator { Multiplies (Word word.And) operator.And }
{}

/// Expressions that the longer example has not: a string, `nil`, a sign, `not`, the empty set, and a function with a width.
pub fn each_expression()
    ensures string { StringExample }
    ensures nil { NilExample }
    ensures sign { SignExample }
    ensures negation { NotExample }
    ensures empty_set { EmptySetExample }
    ensures function_call { FunctionExample }
{}

/// Statements that the longer examples have not: one of each kind.
pub fn each_statement()
    ensures procedure_call { ProcedureExample }
    ensures goto_statement { GotoExample }
    ensures compound_statement { CompoundExample }
    ensures while_statement { WhileExample }
    ensures repeat_statement { RepeatExample }
    ensures for_to { ToExample }
    ensures for_downto { DowntoExample }
    ensures with_statement { WithExample }
{}

/// Type denoters that the longer example has not: one of each kind, and packed ones.
pub fn each_type()
    ensures enumeration { EnumerationExample }
    ensures signed_subrange { SignedSubrangeExample }
    ensures set_type { SetExample }
    ensures packed_set { PackedSetExample }
    ensures file_type { FileExample }
    ensures packed_file { PackedFileExample }
    ensures packed_array { PackedArrayExample }
    ensures empty_record { EmptyRecordExample }
    ensures no_tag { NoTagExample }
{}

/// Headings that the longer example has not: with a procedural parameter, and without a result type.
pub fn each_heading()
    ensures procedural { ProceduralExample }
    ensures no_result { NoResultExample }
{}

/// A program with a label part and a type part.
pub fn each_part_of_a_block()
    ensures { PartsExample }
{}
