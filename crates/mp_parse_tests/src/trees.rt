//! Texts, and the tree or the error of each, worked out by hand from the grammar (`docs/LANGUAGE.md`).
//!
//! The last part of the program's input are texts, each ended by a line `=====`; behind each its answer is written.
//! There are at least two for each production of the grammar, and then texts that are no programs. `stdout` has them
//! with the answers that are right, so that it is the page to read. Texts that are too long to write down, those at the
//! limits, stand in `mp_unit_tests`.
//!
//! # How an answer is written
//!
//! `error 201 at token 5` is the code of the first error and the index of its token in the text, from 0; the number of
//! tokens stands for the end. Else the answer has one line for each block, in order of text, the program's first. A
//! block of depth n has n - 1 dots before it. Separators count for nothing.
//!
//! A node of a tree is a list in parentheses that begins with a word. Behind `@` stands the ordinal of a token among
//! the own tokens of its block, from 0; what has no `@` has no ordinal in the tree.
//!
//! | Form | What it is |
//! |---|---|
//! | `a@4`, `1@4`, `'it's'@4`, `nil@4` | an identifier, a number, a string by its characters, `nil` |
//! | `(block .. (begin@3 S .. end@9) 11)` | a block: its parts, its statement part, and how many own tokens it has |
//! | `(program p@1 input@3)` | the program's heading: its name and parameters |
//! | `(label 1@4 2@6)` | the label part |
//! | `(const a@4 C ;@7)`, `(type a@4 T ;@7)` | each definition, up to its `;` |
//! | `(var (a@4 b@6 : T) ..)` | the variable part: its sections |
//! | `(declare H ;@5 block)`, `(declare H ;@5 forward@6)` | each declaration: its heading H, and what follows |
//! | `(procedure@3 q@4 F ..)`, `(function@3 f@4 F .. : t@9)` | a heading, or a formal of that kind |
//! | `(a@6 b@8 : t@10)`, `(var@5 a@6 : t@8)` | other formals F |
//! | `1@6`, `a@6`, `(-@6 1@7)`, `(+@6 a@7)`, `'x'@6` | a constant C |
//! | `a@6`, `(enum@6 a@7 b@9)`, `(.. C C)`, `(^@6 a@7)` | types T: a name, an enumeration, a subrange, a pointer |
//! | `(array packed (index@6 T) (index@9 T) of T)` | an array; an index stands at the first token of the type or at its `,` |
//! | `(record@6 packed L)`, `(set@6 packed T)` | a record and a set; `packed` only where it stands in the text |
//! | `(file@6 file@7 T)` | a file, by its first token and by its word `file`, which are one where it is not packed |
//! | `(fields (a@7 : T) .. (case@11 a@12 : t@14 V ..))` | a field list L: its sections and its variant part |
//! | `(variant (C ..) L)` | a variant V |
//! | `(label 1@4 S)`, `empty@4`, `(goto@4 1@5)` | statements S |
//! | `(:=@5 A E)`, `(call p@4 P ..)`, `(begin@4 S ..)` | an assignment, a call, a compound statement |
//! | `(if@4 E S)`, `(if@4 E S S)`, `(case@4 E (arm (C ..) S) ..)` | conditional statements |
//! | `(while@4 E S)`, `(repeat@4 S .. until E)` | repetitive statements |
//! | `(for@4 i@5 :=@6 E to E S)`, `(with@4 (A ..) S)` | a `for`, or one with `downto`, and a `with` |
//! | `a@4`, `(a@4 (index@5 E) (.@8 b@9) ^@10)` | an access A, without and with selectors |
//! | `E`, `(:@6 E E)` | an actual P: a value, and a value with its width |
//! | `(call f@4 P ..)`, `(inside@4 E)`, `(not@4 E)` | expressions E: a call, one in parentheses, a negation |
//! | `(set@4 E (.. E E) ..)` | a set, with its members |
//! | `(product E (*@5 E) ..)`, `(sum -@4 E (+@6 E) ..)` | a term and a simple expression, each with its operators |
//! | `(relation E (=@5 E))` | two simple expressions with a relation |

mod answers;
mod blocks;
mod expressions;
mod headings;
mod leaves;
mod statements;
mod types;
mod written;

pub use answers::answers;
