// What the definitions of this crate promise: each function's contract is one law of them.
ghost use Rattle.std.specs.Prelude.{◌≡◌, ◌≤◌, ℕ, Bool, List, [], ◌∷◌, Option, Some, None, length, map, codes};
ghost use Rattle.std.specs.List.{AllByRecursion};
ghost use Rattle.mp_ast.specs.declared.tokens.TokenKind.{TokenKind};
ghost use Rattle.mp_ast.specs.declared.leaves.Identifier.{Identifier};
ghost use Rattle.mp_ast.specs.declared.leaves.Number.{Number};
ghost use Rattle.mp_ast.specs.declared.leaves.CharacterString.{CharacterString};
ghost use Rattle.mp_ast.specs.declared.leaves.Sign.{Sign};
ghost use Rattle.mp_ast.specs.declared.leaves.Constant.{Constant};
ghost use Rattle.mp_ast.specs.declared.expressions.Access.{Access};
ghost use Rattle.mp_ast.specs.declared.expressions.Actual.{Actual};
ghost use Rattle.mp_ast.specs.declared.expressions.Member.{Member};
ghost use Rattle.mp_ast.specs.declared.expressions.Operation.{Operation};
ghost use Rattle.mp_ast.specs.declared.expressions.Expr.{Expr};
ghost use Rattle.mp_ast.specs.declared.expressions.Expr.TheVariants as expr;
ghost use Rattle.mp_ast.specs.declared.statements.ForHead.{ForHead};
ghost use Rattle.mp_ast.specs.declared.statements.Arm.{Arm};
ghost use Rattle.mp_ast.specs.declared.statements.Statement.{Statement};
ghost use Rattle.mp_ast.specs.declared.statements.Statement.TheVariants as statement;
ghost use Rattle.mp_ast.specs.declared.types.Index.{Index};
ghost use Rattle.mp_ast.specs.declared.types.Section.{Section};
ghost use Rattle.mp_ast.specs.declared.types.VariantPart.{VariantPart};
ghost use Rattle.mp_ast.specs.declared.types.Denoter.{Denoter};
ghost use Rattle.mp_ast.specs.declared.types.Denoter.TheVariants as denoter;
ghost use Rattle.mp_ast.specs.declared.headings.FormalSection.{FormalSection};
ghost use Rattle.mp_ast.specs.declared.headings.FormalSection.TheVariants as formal;
ghost use Rattle.mp_ast.specs.declared.blocks.Block.{Block};
ghost use Rattle.mp_ast.specs.declared.blocks.Tree.{Tree, roll-Tree};
ghost use Rattle.mp_ast.specs.Rules.{Input};
ghost use Rattle.mp_ast.specs.LeafGrammar as leaf_rule;
ghost use Rattle.mp_ast.specs.ExpressionGrammar as expression_rule;
ghost use Rattle.mp_ast.specs.StatementGrammar as statement_rule;
ghost use Rattle.mp_ast.specs.TypeGrammar as type_rule;
ghost use Rattle.mp_ast.specs.BlockGrammar.{Limits, program};
ghost use Rattle.mp_ast.specs.Programs.{Derives, start_of};
ghost use Rattle.mp_ast.specs.PlainExpressions.{PlainExpr, selectors_of, members_of, operations_of, plain_expr, plain_access};
ghost use Rattle.mp_ast.specs.PlainExpressions.{plain_actuals};
ghost use Rattle.mp_ast.specs.PlainStatements.{PlainStatement, arms_of, plain_head, plain_statement, plain_statements};
ghost use Rattle.mp_ast.specs.PlainTypes.{PlainDenoter, indices_of, variants_of, plain_denoter, plain_sections};
ghost use Rattle.mp_ast.specs.PlainHeadings.{PlainFormalSection, formals_of, plain_formal_section};
ghost use Rattle.mp_ast.specs.PlainTrees.{PlainTree, trees_of, plain_block, plain_tree};
ghost use Rattle.mp_ast.specs.FirstTokens.{first_of_constant, first_of_access, first_of_expression, first_of_denoter};
ghost use Rattle.mp_ast.specs.FirstTokens.{first_of_statement};
ghost use Rattle.mp_ast.specs.Blocks.{tokens_of, blocks, own_tokens, index_of, token_position, PathsDiffer, EachIsAtItsPath};
ghost use Rattle.mp_ast.specs.Blocks.{position};
ghost use Rattle.mp_ast.specs.WholeTrees.{IsWhole, TokensAddUp, EachTokenHasABlock};
ghost use Rattle.mp_ast.specs.WellFormed.{IsWellFormed, FitsItsPath};
ghost use Rattle.mp_ast.specs.SharedTrees.{node, own_of, inside_of, declarations_of};
ghost use Rattle.mp_ast.specs.BlocksExample as example;
ghost use Rattle.mp_ast.specs.BlocksExample.{step, place};

/// The plain form of an expression is that of its parts, put together: a clause for each variant.
pub fn plain_expression_forms()
    ensures number { (n : Number) → plain_expr (expr.Number n) ≡ PlainExpr.Number n }
    ensures text { (s : CharacterString) → plain_expr (expr.Text s) ≡ PlainExpr.Text s }
    ensures nil { (at : ℕ) → plain_expr (expr.Nil at) ≡ PlainExpr.Nil at }
    ensures access { (a : Access Expr) → plain_expr (expr.Access a) ≡ PlainExpr.Access a.name (selectors_of plain_expr a.selectors) }
    ensures call { (name : Identifier) (given : List (Actual Expr)) → plain_expr (expr.Call name given)
        ≡ PlainExpr.Call name (plain_actuals given) }
    ensures inside { (at : ℕ) (x : Expr) → plain_expr (expr.Inside at x) ≡ PlainExpr.Inside at (plain_expr x) }
    ensures negation { (at : ℕ) (x : Expr) → plain_expr (expr.Not at x) ≡ PlainExpr.Not at (plain_expr x) }
    ensures set_constructor { (at : ℕ) (members : List (Member Expr)) → plain_expr (expr.Set at members)
        ≡ PlainExpr.Set at (members_of plain_expr members) }
    ensures product { (first : Expr) (more : List (Operation Expr)) → plain_expr (expr.Product first more)
        ≡ PlainExpr.Product (plain_expr first) (operations_of plain_expr more) }
    ensures sum { (sign : Option Sign) (first : Expr) (more : List (Operation Expr)) → plain_expr (expr.Sum sign first more)
        ≡ PlainExpr.Sum sign (plain_expr first) (operations_of plain_expr more) }
    ensures relation { (left : Expr) (o : Operation Expr) → plain_expr (expr.Relation left o)
        ≡ PlainExpr.Relation (plain_expr left) o.at o.operator (plain_expr o.operand) }
{}

/// The plain form of a statement is that of its parts, put together: a clause for each variant.
pub fn plain_statement_forms()
    ensures labelled { (label : Number) (s : Statement) → plain_statement (statement.Labelled label s)
        ≡ PlainStatement.Labelled label (plain_statement s) }
    ensures empty_statement { (at : ℕ) → plain_statement (statement.Empty at) ≡ PlainStatement.Empty at }
    ensures assign { (variable : Access Expr) (at : ℕ) (value : Expr) → plain_statement (statement.Assign variable at value)
        ≡ PlainStatement.Assign (plain_access variable) at (plain_expr value) }
    ensures call { (name : Identifier) (given : List (Actual Expr)) → plain_statement (statement.Call name given)
        ≡ PlainStatement.Call name (plain_actuals given) }
    ensures goto_statement { (at : ℕ) (label : Number) → plain_statement (statement.Goto at label) ≡ PlainStatement.Goto at label }
    ensures compound_statement { (at : ℕ) (statements : List Statement) → plain_statement (statement.Compound at statements)
        ≡ PlainStatement.Compound at (plain_statements statements) }
    ensures if_statement { (at : ℕ) (condition : Expr) (first : Statement) → plain_statement (statement.If at condition first None)
        ≡ PlainStatement.If at (plain_expr condition) (plain_statement first) }
    ensures if_with_else { (at : ℕ) (condition : Expr) (first second : Statement) →
        plain_statement (statement.If at condition first (Some second))
        ≡ PlainStatement.IfElse at (plain_expr condition) (plain_statement first) (plain_statement second) }
    ensures case_statement { (at : ℕ) (index : Expr) (arms : List (Arm Statement)) → plain_statement (statement.Case at index arms)
        ≡ PlainStatement.Case at (plain_expr index) (arms_of plain_statement arms) }
    ensures while_statement { (at : ℕ) (condition : Expr) (body : Statement) → plain_statement (statement.While at condition body)
        ≡ PlainStatement.While at (plain_expr condition) (plain_statement body) }
    ensures repeat_statement { (at : ℕ) (statements : List Statement) (condition : Expr) →
        plain_statement (statement.Repeat at statements condition)
        ≡ PlainStatement.Repeat at (plain_statements statements) (plain_expr condition) }
    ensures for_statement { (at : ℕ) (head : ForHead) (body : Statement) → plain_statement (statement.For at head body)
        ≡ PlainStatement.For at (plain_head head) (plain_statement body) }
    ensures with_statement { (at : ℕ) (records : List (Access Expr)) (body : Statement) → plain_statement (statement.With at records body)
        ≡ PlainStatement.With at (map plain_access records) (plain_statement body) }
{}

/// The plain form of a type denoter is that of its parts, put together: a clause for each variant.
pub fn plain_type_forms()
    ensures named { (name : Identifier) → plain_denoter (denoter.Named name) ≡ PlainDenoter.Named name }
    ensures enumeration { (at : ℕ) (constants : List Identifier) → plain_denoter (denoter.Enumeration at constants)
        ≡ PlainDenoter.Enumeration at constants }
    ensures subrange { (first last : Constant) → plain_denoter (denoter.Subrange first last) ≡ PlainDenoter.Subrange first last }
    ensures pointer_type { (at : ℕ) (domain : Identifier) → plain_denoter (denoter.Pointer at domain) ≡ PlainDenoter.Pointer at domain }
    ensures array_type { (at : ℕ) (packed : Bool) (indices : List (Index Denoter)) (component : Denoter) →
        plain_denoter (denoter.Array at packed indices component)
        ≡ PlainDenoter.Array at packed (indices_of plain_denoter indices) (plain_denoter component) }
    ensures record_type { (at : ℕ) (packed : Bool) (fields : Denoter) → plain_denoter (denoter.Record at packed fields)
        ≡ PlainDenoter.Record at packed (plain_denoter fields) }
    ensures set_type { (at : ℕ) (packed : Bool) (base : Denoter) → plain_denoter (denoter.Set at packed base)
        ≡ PlainDenoter.Set at packed (plain_denoter base) }
    ensures file_type { (at file : ℕ) (component : Denoter) → plain_denoter (denoter.File at file component)
        ≡ PlainDenoter.File at file (plain_denoter component) }
    ensures fields { (fixed : List (Section Denoter)) → plain_denoter (denoter.Fields fixed None)
        ≡ PlainDenoter.Fields (plain_sections fixed) }
    ensures fields_with_variants { (fixed : List (Section Denoter)) (part : VariantPart Denoter) → plain_denoter (denoter.Fields fixed (Some part))
        ≡ PlainDenoter.FieldsWithVariants (plain_sections fixed) part.at part.tag part.of (variants_of plain_denoter part.variants) }
{}

/// The plain form of a formal parameter section is that of its parts, put together: a clause for each variant.
pub fn plain_heading_forms()
    ensures values { (names : List Identifier) (of : Identifier) → plain_formal_section (formal.Values names of)
        ≡ PlainFormalSection.Values names of }
    ensures variables { (at : ℕ) (names : List Identifier) (of : Identifier) → plain_formal_section (formal.Variables at names of)
        ≡ PlainFormalSection.Variables at names of }
    ensures procedure { (at : ℕ) (name : Identifier) (own : List FormalSection) → plain_formal_section (formal.Procedure at name own)
        ≡ PlainFormalSection.Procedure at name (formals_of plain_formal_section own) }
    ensures function { (at : ℕ) (name : Identifier) (own : List FormalSection) (result : Identifier) →
        plain_formal_section (formal.Function at name own result)
        ≡ PlainFormalSection.Function at name (formals_of plain_formal_section own) result }
{}

/// The plain form of a tree is that of its own block and those of the trees in it.
pub fn plain_tree_forms()
    ensures { (own : Block) (inside : List Tree) → plain_tree (roll-Tree (record { own = own; inside = inside }))
        ≡ PlainTree.TreeOf (plain_block own) (trees_of plain_tree inside) }
{}

/// Nothing is lost in a plain form: what has the same one is the same.
pub fn plain_forms_tell()
    ensures expressions { (s t : Expr) → plain_expr s ≡ plain_expr t → s ≡ t }
    ensures statements { (s t : Statement) → plain_statement s ≡ plain_statement t → s ≡ t }
    ensures types { (s t : Denoter) → plain_denoter s ≡ plain_denoter t → s ≡ t }
    ensures formal_sections { (s t : FormalSection) → plain_formal_section s ≡ plain_formal_section t → s ≡ t }
    ensures own_trees { (s t : Block) → plain_block s ≡ plain_block t → s ≡ t }
    ensures trees { (s t : Tree) → plain_tree s ≡ plain_tree t → s ≡ t }
{}

/// Each part of a program begins at its first token: what a rule reads begins where its tree says.
pub fn parts_begin_at_their_first_tokens()
    ensures constants { (i : Input) (x : Constant) (j : Input) → leaf_rule.constant i x j → first_of_constant x ≡ i.at }
    ensures accesses { (room : ℕ) (i : Input) (x : Access Expr) (j : Input) → expression_rule.access room i x j →
        first_of_access (plain_access x) ≡ i.at }
    ensures expressions { (room : ℕ) (i : Input) (x : Expr) (j : Input) → expression_rule.expression room i x j →
        first_of_expression (plain_expr x) ≡ i.at }
    ensures types { (room : ℕ) (i : Input) (x : Denoter) (j : Input) → type_rule.denoter room i x j →
        first_of_denoter (plain_denoter x) ≡ i.at }
    ensures statements { (room : ℕ) (i : Input) (x : Statement) (j : Input) → statement_rule.statement room i x j →
        first_of_statement (plain_statement x) ≡ i.at }
{}

/// In a tree whose parts fit together, each token of the text is an own token of exactly one block.
pub fn tokens_of_whole_trees()
    ensures number { (tree : PlainTree) → IsWhole tree → TokensAddUp tree }
    ensures each { (tree : PlainTree) → IsWhole tree → EachTokenHasABlock tree }
{}

/// The parts of a program's tree fit together, and it has the tokens of its text: each token is an own token of exactly
/// one block.
pub fn trees_of_programs_are_whole()
    ensures whole { (limits : Limits) (kinds : List TokenKind) (tree : Tree) → Derives limits kinds tree → IsWhole (plain_tree tree) }
    ensures tokens { (limits : Limits) (kinds : List TokenKind) (tree : Tree) → Derives limits kinds tree →
        tokens_of (plain_tree tree) ≡ length kinds }
    ensures each { (limits : Limits) (kinds : List TokenKind) (tree : Tree) → Derives limits kinds tree →
        EachTokenHasABlock (plain_tree tree) }
{}

/// Each block of a program is well-formed, and the program's alone has the program's heading.
pub fn blocks_of_programs_are_well_formed()
    ensures headings { (limits : Limits) (kinds : List TokenKind) (tree : Tree) → Derives limits kinds tree →
        AllByRecursion (λ block. FitsItsPath block.path block.own.program) (blocks (plain_tree tree)) }
    ensures own_trees { (limits : Limits) (kinds : List TokenKind) (tree : Tree) → Derives limits kinds tree →
        AllByRecursion (λ block. IsWellFormed block.own) (blocks (plain_tree tree)) }
{}

/// In a program's tree stand as many declarations as the grammar has counted, and no more than it allows.
pub fn declarations_of_programs()
    ensures number { (limits : Limits) (kinds : List TokenKind) (tree : Tree) (j : Input) → program limits (start_of kinds) tree j →
        declarations_of (plain_tree tree) ≡ j.declared }
    ensures few { (limits : Limits) (kinds : List TokenKind) (tree : Tree) → Derives limits kinds tree →
        declarations_of (plain_tree tree) ≤ limits.declarations }
{}

/// A tree is a node of its parts, and the parts of a node are what it was made of.
pub fn nodes_have_parts()
    ensures parts { (tree : Tree) → node (own_of tree) (inside_of tree) ≡ tree }
    ensures own { (own : Block) (inside : List Tree) → own_of (node own inside) ≡ own }
    ensures inside { (own : Block) (inside : List Tree) → inside_of (node own inside) ≡ inside }
{}

/// Each block of a tree has a path of its own, by which it is found.
pub fn one_block_a_path()
    ensures differ { (tree : PlainTree) → PathsDiffer tree }
    ensures found { (tree : PlainTree) → EachIsAtItsPath tree }
{}

/// A program with a procedure that is declared `forward`, one with a block in it, and two of one name: its blocks with
/// their paths and own trees, the indices of their own tokens, and places, as counted by hand.
pub fn blocks_of_an_example()
    ensures paths { map (λ b. b.path) (blocks example.program)
        ≡ [] ∷ (step (codes "b") 1 ∷ []) ∷ (step (codes "b") 1 ∷ step (codes "a") 1 ∷ []) ∷ (step (codes "a") 1 ∷ []) ∷ (step (codes "a") 2 ∷ []) ∷ [] }
    ensures own_trees { map (λ b. b.own) (blocks example.program)
        ≡ example.block_of_p ∷ example.block_of_b ∷ example.empty_block ∷ example.empty_block ∷ example.empty_block ∷ [] }
    ensures own_tokens { map own_tokens (blocks example.program)
        ≡ (0 ∷ 1 ∷ 2 ∷ 3 ∷ 4 ∷ 5 ∷ 6 ∷ 7 ∷ 8 ∷ 9 ∷ 10
        ∷ 20 ∷ 21 ∷ 22 ∷ 23 ∷ 26 ∷ 27 ∷ 28 ∷ 29 ∷ 32 ∷ 33 ∷ 34 ∷ 35 ∷ 36 ∷ [])
        ∷ (11 ∷ 12 ∷ 13 ∷ 16 ∷ 17 ∷ 18 ∷ 19 ∷ []) ∷ (14 ∷ 15 ∷ []) ∷ (24 ∷ 25 ∷ []) ∷ (30 ∷ 31 ∷ []) ∷ [] }
    ensures tokens { tokens_of example.program ≡ 37 }
    ensures token_of_the_program { index_of example.program (place [] 14) ≡ Some 23 }
    ensures token_of_a_block { index_of example.program (place (step (codes "b") 1 ∷ []) 5) ≡ Some 18 }
    ensures token_of_the_second { index_of example.program (place (step (codes "a") 2 ∷ []) 1) ≡ Some 31 }
    ensures no_such_token { index_of example.program (place (step (codes "a") 2 ∷ []) 2) ≡ None }
    ensures no_such_block { index_of example.program (place (step (codes "a") 3 ∷ []) 0) ≡ None }
    ensures position { position example.text example.tokens example.program (place (step (codes "b") 1 ∷ step (codes "a") 1 ∷ []) 1)
        ≡ Some (record { line = 4; column = 20 }) }
    ensures no_position { position example.text example.tokens example.program (place [] 24) ≡ None }
    ensures end { token_position example.text example.tokens 37 ≡ record { line = 9; column = 1 } }
{}
