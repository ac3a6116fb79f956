ghost use Rattle.std.specs.Prelude.{◌≡◌, ◌≢◌, ◌+◌, ◌<◌, ◌≤◌, ◌^◌, ◌++◌, ◌∷◌, [], IfErr, IfOk, IsTrue, OnErr, OnOk, None, length};
ghost use Rattle.mp_base.specs.Text.{bytes_of};
ghost use Rattle.mp_desk.specs.Desk.{AreLexed, edit_change, last_text, most_read, whole_change};
ghost use Rattle.mp_lex.specs.Order.{AreErrorsInOrder, AreTokensInOrder};
ghost use Rattle.mp_text.specs.Edits.{edited, new_lines};
ghost use Rattle.mp_text.specs.Refusals.{IsDue, back_refusal, no_version, refusal};
ghost use Rattle.mp_text.specs.Versions.{IsText, stands, version_at};

use mp_base::{Bytes, Memory, Steps, Version};
use mp_lex::{Change, Lexed, lex, relex};
use mp_text::{Edit, TextError, Texts};
use std::alloc::Global;
use std::marker::Model;

/// The versions of a text, with the tokens and lexical errors of the last one. Those of a new version come from those of
/// the one before; those of an older one are not kept.
#[derive(Drop)]
pub struct Desk {
    alloc: Global,
    texts: Texts,
    lexed: Lexed,
}

impl Model for Desk {
    ghost use Rattle.std.specs.Prelude.{List, ℕ};
    ghost use Rattle.mp_desk.specs.Desk.{AreLexed, last_text};

    ghost Value = { List (List (List ℕ)) };

    ghost view = { λ desk. desk.texts };

    ghost invariant = { λ desk. AreLexed (last_text desk.texts) desk.lexed.tokens desk.lexed.errors };
}

impl Desk {
    /// Version 1, which is empty.
    pub fn new(alloc: Global) -> Result<Desk, Memory>
        ensures { IfOk result (λ desk. desk ≡ [] ∷ []) }
    {
        let texts = Texts::new(alloc)?;
        let lexed = lex(alloc, &[])?;
        Ok(Desk {
            alloc,
            texts,
            lexed,
        })
    }

    /// The versions.
    pub fn texts(&self) -> &Texts
        ensures { result.now ≡ self.now }
    {
        &self.texts
    }

    /// The bytes of a version, each line with its line end. It is refused exactly where there is no such version.
    pub fn bytes(&self, v: Version) -> Result<Bytes, TextError>
        ensures stands { OnOk result (IsTrue (stands self.now v.0)) }
        ensures bytes { IfOk result (λ bytes. bytes ≡ bytes_of (version_at self.now v.0)) }
        ensures text { OnOk result (IsText (version_at self.now v.0)) }
        ensures err { IfErr result (λ e. IsDue e (no_version self.now v.0)) }
    {
        self.texts.bytes(v)
    }

    /// The tokens and lexical errors of the last version.
    pub fn lexed(&self) -> &Lexed
        ensures lexed { AreLexed (last_text self.now) result.now.tokens result.now.errors }
        ensures tokens_in_order { AreTokensInOrder (bytes_of (last_text self.now)) result.now.tokens }
        ensures errors_in_order { AreErrorsInOrder (bytes_of (last_text self.now)) result.now.errors }
    {
        &self.lexed
    }

    /// The tokens and lexical errors of a version, found anew in its bytes. It is refused exactly where there is no such
    /// version.
    pub fn lexed_of(&self, v: Version) -> Result<Lexed, TextError>
        ensures stands { OnOk result (IsTrue (stands self.now v.0)) }
        ensures lexed { IfOk result (λ lexed. AreLexed (version_at self.now v.0) lexed.tokens lexed.errors) }
        ensures tokens_in_order { IfOk result (λ lexed. AreTokensInOrder (bytes_of (version_at self.now v.0)) lexed.tokens) }
        ensures errors_in_order { IfOk result (λ lexed. AreErrorsInOrder (bytes_of (version_at self.now v.0)) lexed.errors) }
        ensures err { IfErr result (λ e. IsDue e (no_version self.now v.0)) }
    {
        let bytes = match self.texts.bytes(v) {
            Ok(bytes) => bytes,
            Err(error) => return Err(error),
        };
        match lex(self.alloc, bytes.get()) {
            Ok(lexed) => Ok(lexed),
            Err(_) => Err(TextError::Memory),
        }
    }

    /// Makes a new version by an edit of the last one, and gives its number. Of its bytes only those round the change
    /// are read. Where it is refused, no byte is read and nothing changes; where it finds no memory, nothing changes.
    pub fn edit<L>(&mut self, edit: Edit, steps: &mut Steps<L>) -> Result<Version, TextError>
        requires { length (new_lines edit) < 2 ^ 31 }
        ensures ok { OnOk result (refusal self.old (length self.old) edit ≡ None) }
        ensures text { OnOk result (self.new ≡ self.old ++ edited edit (last_text self.old) ∷ []) }
        ensures number { IfOk result (λ v. v.0 ≡ length self.new) }
        ensures err { IfErr result (λ e. IsDue e (refusal self.old (length self.old) edit)) }
        ensures kept { OnErr result (self.new ≡ self.old) }
        ensures refused { IfErr result (λ e. e ≢ TextError.Memory → steps.new ≡ steps.old) }
        ensures steps { steps.new ≤ steps.old + most_read (edit_change edit (last_text self.old)) (last_text self.old) (edited edit (last_text self.old)) }
    {
        let base = self.texts.current();
        let made = match self.texts.prepared(base, &edit) {
            Ok(made) => made,
            Err(error) => return Err(error),
        };
        let reader = made.reader();
        let change = Change {
            start: self.texts.change_start(base, &edit),
            removed: self.texts.change_removed(base, &edit),
            added: edit.added() as u32,
        };
        let lexed = match relex(self.alloc, &self.lexed, &reader, change, steps) {
            Ok(lexed) => lexed,
            Err(_) => return Err(TextError::Memory),
        };
        let v = match self.texts.add(made) {
            Ok(v) => v,
            Err(error) => return Err(error),
        };
        self.lexed = lexed;
        Ok(v)
    }

    /// Makes a new version with the text of one that stands, and gives its number. Its bytes are read, each once. Where
    /// it is refused, no byte is read and nothing changes; where it finds no memory, nothing changes.
    pub fn back<L>(&mut self, v: Version, steps: &mut Steps<L>) -> Result<Version, TextError>
        ensures ok { OnOk result (back_refusal self.old v.0 ≡ None) }
        ensures text { OnOk result (self.new ≡ self.old ++ version_at self.old v.0 ∷ []) }
        ensures number { IfOk result (λ made. made.0 ≡ length self.new) }
        ensures err { IfErr result (λ e. IsDue e (back_refusal self.old v.0)) }
        ensures kept { OnErr result (self.new ≡ self.old) }
        ensures refused { IfErr result (λ e. e ≢ TextError.Memory → steps.new ≡ steps.old) }
        ensures steps { steps.new ≤ steps.old + most_read (whole_change (last_text self.old) (version_at self.old v.0)) (last_text self.old) (version_at self.old v.0) }
    {
        let current = self.texts.current();
        let made = match self.texts.prepared_back(v) {
            Ok(made) => made,
            Err(error) => return Err(error),
        };
        let reader = made.reader();
        let change = Change {
            start: 0,
            removed: self.texts.len(current),
            added: self.texts.len(v),
        };
        let anew = match relex(self.alloc, &self.lexed, &reader, change, steps) {
            Ok(lexed) => lexed,
            Err(_) => return Err(TextError::Memory),
        };
        let number = match self.texts.add(made) {
            Ok(number) => number,
            Err(error) => return Err(error),
        };
        self.lexed = anew;
        Ok(number)
    }
}
