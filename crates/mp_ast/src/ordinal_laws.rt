//! Laws of ordinals: where in a text the tokens stand that a tree tells of.

ghost use Rattle.std.specs.Prelude.{◌≡◌, ◌<◌, ℕ, List, Some, codes};
ghost use Rattle.std.specs.List.{AllByRecursion};
ghost use Rattle.mp_base.specs.declared.place.Place.{Place};
ghost use Rattle.mp_ast.specs.declared.tokens.TokenKind.{TokenKind};
ghost use Rattle.mp_ast.specs.declared.blocks.Tree.{Tree};
ghost use Rattle.mp_ast.specs.BlockGrammar.{Limits};
ghost use Rattle.mp_ast.specs.Programs.{Derives};
ghost use Rattle.mp_ast.specs.PlainTrees.{PlainTree, plain_tree};
ghost use Rattle.mp_ast.specs.Blocks.{PlacedBlock, blocks, tokens_of, index_of};
ghost use Rattle.mp_ast.specs.WholeTrees.{IsWhole};
ghost use Rattle.mp_ast.specs.Places.{place_of};
ghost use Rattle.mp_ast.specs.PlainStatements.{PlainStatement};
ghost use Rattle.mp_ast.specs.LeavesExample as example;
ghost use Rattle.mp_ast.specs.LeavesInText.{IndicesRise, OrdinalsRise, OrdinalsAreBelow, LeavesStand, EachIdentifierIsTold};

/// In the text, the own tokens of a block stand in the order of their ordinals.
pub fn indices_rise_with_ordinals()
    ensures { (block : PlacedBlock) → IndicesRise block }
{}

/// In a tree whose parts fit together, each token of the text has one place, and each place with a token is found back
/// from the token's index.
pub fn places_of_tokens()
    ensures found { (tree : PlainTree) (place : Place) (index : ℕ) → IsWhole tree → index_of tree place ≡ Some index →
        place_of tree index ≡ Some place }
    ensures back { (tree : PlainTree) (place : Place) (index : ℕ) → place_of tree index ≡ Some place → index_of tree place
        ≡ Some index }
    ensures each { (tree : PlainTree) (index : ℕ) → IsWhole tree → index < tokens_of tree →
        (place : Place) × (place_of tree index ≡ Some place) }
{}

/// What the tree of a program tells of single tokens. In each of its blocks the ordinals rise in order of text and are
/// below the number of own tokens; at each stands the token that the tree tells of; and each identifier of the text is
/// that of exactly one identifier of the tree, or of a `forward`.
pub fn trees_tell_of_their_tokens()
    ensures ordinals_rise { (limits : Limits) (kinds : List TokenKind) (tree : Tree) → Derives limits kinds tree →
        AllByRecursion OrdinalsRise (blocks (plain_tree tree)) }
    ensures ordinals_are_below { (limits : Limits) (kinds : List TokenKind) (tree : Tree) → Derives limits kinds tree →
        AllByRecursion OrdinalsAreBelow (blocks (plain_tree tree)) }
    ensures leaves_stand { (limits : Limits) (kinds : List TokenKind) (tree : Tree) → Derives limits kinds tree →
        AllByRecursion (LeavesStand kinds) (blocks (plain_tree tree)) }
    ensures each_identifier_is_told { (limits : Limits) (kinds : List TokenKind) (tree : Tree) → Derives limits kinds tree →
        AllByRecursion (EachIdentifierIsTold kinds) (blocks (plain_tree tree)) }
{}

/// Of `program p; begin p end.` the tree with a call of `p` at the ordinal 4 tells of its tokens. One with another name,
/// with another ordinal, or with no call does not.
pub fn leaves_of_an_example()
    ensures stand { LeavesStand example.kinds (example.block (example.call 4 (codes "p"))) }
    ensures another_name { LeavesStand example.kinds (example.block (example.call 4 (codes "q"))) → ⊥ }
    ensures another_ordinal { LeavesStand example.kinds (example.block (example.call 5 (codes "p"))) → ⊥ }
    ensures nothing_told { EachIdentifierIsTold example.kinds (example.block (PlainStatement.Empty 4)) → ⊥ }
    ensures out_of_order { OrdinalsRise (example.block (example.call 3 (codes "p"))) → ⊥ }
{}
