ghost use Rattle.std.specs.Prelude.{◌≡◌, ◌<◌, ◌≤◌, ◌^◌, ◌++◌, ◌∷◌, [], IfErr, IfOk, IsTrue, MatchOption, None, OnErr, OnOk, false, length, true};
ghost use Rattle.mp_base.specs.Position.{position_of};
ghost use Rattle.mp_base.specs.Text.{bytes_of};
ghost use Rattle.mp_text.specs.Changes.{change_removed, change_start};
ghost use Rattle.mp_text.specs.Edits.{IsInRange, edited, new_lines};
ghost use Rattle.mp_text.specs.Refusals.{IsDue, back_refusal, no_version, refusal};
ghost use Rattle.mp_text.specs.Versions.{AreVersions, IsText, stands, version_at};

use crate::edits::Edit;
use crate::errors::TextError;
use crate::pieces::VersionReader;
use crate::prepared::Prepared;
use crate::ranges::check_range;
use crate::shared::SharedText;
use crate::sizes::check_size;
use mp_base::{At, Bytes, Memory, VERSION_LIMIT, Version};
use std::alloc::Global;
use std::marker::Model;

/// Every version of a text. Version 1 is empty, and each new version has the next number; none ever changes.
#[derive(Drop)]
pub struct Texts {
    versions: Vec<SharedText>,
}

impl Model for Texts {
    ghost use Rattle.std.specs.Prelude.{List, ℕ};
    ghost use Rattle.mp_text.specs.Versions.{AreVersions};

    ghost Value = { List (List (List ℕ)) };

    ghost view = { λ texts. texts.versions.items };

    ghost invariant = { λ texts. AreVersions texts.versions.items };
}

// A version, where it stands.
fn version(versions: &[SharedText], v: Version) -> Option<&SharedText>
    ensures { MatchOption result (stands versions.now v.0 ≡ false) (λ text. (stands versions.now v.0 ≡ true) × (text.now ≡ version_at versions.now v.0)) }
{
    let v = v.0 as usize;
    if v < 1 || versions.len() < v {
        return None;
    }
    Some(&versions[v - 1])
}

// What an edit makes of a version, where it is not refused.
fn changed(
    alloc: Global,
    versions: &[SharedText],
    base: Version,
    edit: &Edit,
) -> Result<Prepared, TextError>
    requires versions { AreVersions versions.now }
    requires few { length (new_lines edit.now) < 2 ^ 31 }
    ensures ok { OnOk result (refusal versions.now base.0 edit.now ≡ None) }
    ensures stands { OnOk result (IsTrue (stands versions.now base.0)) }
    ensures range { OnOk result (IsInRange edit.now (version_at versions.now base.0)) }
    ensures text { IfOk result (λ made. made ≡ edited edit.now (version_at versions.now base.0)) }
    ensures room { OnOk result (length versions.now < VERSION_LIMIT) }
    ensures err { IfErr result (λ e. IsDue e (refusal versions.now base.0 edit.now)) }
{
    if versions.len() >= VERSION_LIMIT {
        return Err(TextError::VersionsFull);
    }
    let Some(text) = version(versions, base) else {
        return Err(TextError::NoVersion);
    };
    match check_range(text, edit) {
        Err(error) => Err(error),
        Ok(()) => match check_size(text, edit) {
            Err(error) => Err(error),
            Ok(()) => match text.edited(alloc, edit) {
                Err(_) => Err(TextError::Memory),
                Ok(made) => Ok(Prepared::new(made)),
            },
        },
    }
}

// The text of a version, where going back to it is not refused.
fn earlier(alloc: Global, versions: &[SharedText], v: Version) -> Result<Prepared, TextError>
    requires { AreVersions versions.now }
    ensures ok { OnOk result (back_refusal versions.now v.0 ≡ None) }
    ensures stands { OnOk result (IsTrue (stands versions.now v.0)) }
    ensures text { IfOk result (λ made. made ≡ version_at versions.now v.0) }
    ensures room { OnOk result (length versions.now < VERSION_LIMIT) }
    ensures err { IfErr result (λ e. IsDue e (back_refusal versions.now v.0)) }
{
    if versions.len() >= VERSION_LIMIT {
        return Err(TextError::VersionsFull);
    }
    let Some(text) = version(versions, v) else {
        return Err(TextError::NoVersion);
    };
    match text.copy(alloc) {
        Err(_) => Err(TextError::Memory),
        Ok(made) => Ok(Prepared::new(made)),
    }
}

impl Texts {
    /// Version 1, which is empty.
    pub fn new(alloc: Global) -> Result<Texts, Memory>
        ensures { IfOk result (λ texts. texts ≡ [] ∷ []) }
    {
        let mut versions = Vec::new(alloc);
        versions.push(SharedText::new(alloc))?;
        Ok(Texts { versions })
    }

    /// What an edit makes of a version that stands. It is refused as by `apply`, and changes nothing: `add` makes a
    /// version of it. Between the two all may be done that can fail. The edit brings fewer than 2^31 lines.
    pub fn prepared(&self, base: Version, edit: &Edit) -> Result<Prepared, TextError>
        requires { length (new_lines edit.now) < 2 ^ 31 }
        ensures ok { OnOk result (refusal self.now base.0 edit.now ≡ None) }
        ensures stands { OnOk result (IsTrue (stands self.now base.0)) }
        ensures range { OnOk result (IsInRange edit.now (version_at self.now base.0)) }
        ensures text { IfOk result (λ made. made ≡ edited edit.now (version_at self.now base.0)) }
        ensures room { OnOk result (length self.now < VERSION_LIMIT) }
        ensures err { IfErr result (λ e. IsDue e (refusal self.now base.0 edit.now)) }
    {
        changed(
            *self.versions.allocator(),
            self.versions.as_slice(),
            base,
            edit,
        )
    }

    /// The text of a version that stands, as a new version. It is refused as by `back`, and changes nothing.
    pub fn prepared_back(&self, v: Version) -> Result<Prepared, TextError>
        ensures ok { OnOk result (back_refusal self.now v.0 ≡ None) }
        ensures stands { OnOk result (IsTrue (stands self.now v.0)) }
        ensures text { IfOk result (λ made. made ≡ version_at self.now v.0) }
        ensures room { OnOk result (length self.now < VERSION_LIMIT) }
        ensures err { IfErr result (λ e. IsDue e (back_refusal self.now v.0)) }
    {
        earlier(*self.versions.allocator(), self.versions.as_slice(), v)
    }

    /// Adds what was prepared as a new version, and gives its number. Where it finds no memory nothing changes.
    pub fn add(&mut self, made: Prepared) -> Result<Version, TextError>
        requires { length self.old < VERSION_LIMIT }
        ensures text { OnOk result (self.new ≡ self.old ++ made ∷ []) }
        ensures number { IfOk result (λ v. v.0 ≡ length self.new) }
        ensures err { IfErr result (λ e. e ≡ TextError.Memory) }
        ensures kept { OnErr result (self.new ≡ self.old) }
    {
        match self.versions.push(made.into_text()) {
            Err(_) => Err(TextError::Memory),
            Ok(()) => Ok(Version(self.versions.len() as u32)),
        }
    }

    /// Makes a new version by an edit of one that stands, and gives its number. The edit brings fewer than 2^31 lines.
    /// Where it is refused, or finds no memory, nothing changes.
    pub fn apply(&mut self, base: Version, edit: Edit) -> Result<Version, TextError>
        requires { length (new_lines edit) < 2 ^ 31 }
        ensures ok { OnOk result (refusal self.old base.0 edit ≡ None) }
        ensures text { OnOk result (self.new ≡ self.old ++ edited edit (version_at self.old base.0) ∷ []) }
        ensures number { IfOk result (λ v. v.0 ≡ length self.new) }
        ensures err { IfErr result (λ e. IsDue e (refusal self.old base.0 edit)) }
        ensures kept { OnErr result (self.new ≡ self.old) }
    {
        let alloc = *self.versions.allocator();
        match changed(alloc, self.versions.as_slice(), base, &edit) {
            Err(error) => Err(error),
            Ok(text) => match self.add(text) {
                Err(error) => Err(error),
                Ok(v) => Ok(v),
            },
        }
    }

    /// Makes a new version with the text of one that stands, and gives its number. It is refused exactly where the
    /// versions are full or there is no such version; then, and where it finds no memory, nothing changes.
    pub fn back(&mut self, v: Version) -> Result<Version, TextError>
        ensures ok { OnOk result (back_refusal self.old v.0 ≡ None) }
        ensures text { OnOk result (self.new ≡ self.old ++ version_at self.old v.0 ∷ []) }
        ensures number { IfOk result (λ made. made.0 ≡ length self.new) }
        ensures err { IfErr result (λ e. IsDue e (back_refusal self.old v.0)) }
        ensures kept { OnErr result (self.new ≡ self.old) }
    {
        let alloc = *self.versions.allocator();
        match earlier(alloc, self.versions.as_slice(), v) {
            Err(error) => Err(error),
            Ok(text) => match self.add(text) {
                Err(error) => Err(error),
                Ok(number) => Ok(number),
            },
        }
    }

    /// The number of the last version made.
    pub fn current(&self) -> Version
        ensures last { result.0 ≡ length self.now }
        ensures stands { IsTrue (stands self.now result.0) }
        ensures versions { AreVersions self.now }
    {
        Version(self.versions.len() as u32)
    }

    /// The bytes of a version, each line with its line end. It is refused exactly where there is no such version.
    pub fn bytes(&self, v: Version) -> Result<Bytes, TextError>
        ensures stands { OnOk result (IsTrue (stands self.now v.0)) }
        ensures bytes { IfOk result (λ bytes. bytes ≡ bytes_of (version_at self.now v.0)) }
        ensures text { OnOk result (IsText (version_at self.now v.0)) }
        ensures err { IfErr result (λ e. IsDue e (no_version self.now v.0)) }
    {
        let Some(text) = version(self.versions.as_slice(), v) else {
            return Err(TextError::NoVersion);
        };
        match text.bytes(*self.versions.allocator()) {
            Err(_) => Err(TextError::Memory),
            Ok(bytes) => Ok(bytes),
        }
    }

    /// The bytes of a version, one by one.
    pub fn reader(&self, v: Version) -> VersionReader<'_>
        requires { IsTrue (stands self.now v.0) }
        ensures { result ≡ bytes_of (version_at self.now v.0) }
    {
        self.text(v).reader()
    }

    /// The line and column, both from 1, of a byte of a version, or of its end.
    pub fn line_of(&self, v: Version, byte: u32) -> At
        requires stands { IsTrue (stands self.now v.0) }
        requires within { byte ≤ length (bytes_of (version_at self.now v.0)) }
        ensures { result ≡ position_of (version_at self.now v.0) byte }
    {
        self.text(v).position(byte)
    }

    /// The number of lines of a version.
    pub fn line_count(&self, v: Version) -> u32
        requires { IsTrue (stands self.now v.0) }
        ensures { result ≡ length (version_at self.now v.0) }
    {
        self.text(v).line_count()
    }

    /// The number of bytes of a version.
    pub fn len(&self, v: Version) -> u32
        requires { IsTrue (stands self.now v.0) }
        ensures len { result ≡ length (bytes_of (version_at self.now v.0)) }
        ensures text { IsText (version_at self.now v.0) }
    {
        self.text(v).len()
    }

    /// Where an edit changes the bytes of a version.
    pub fn change_start(&self, v: Version, edit: &Edit) -> u32
        requires stands { IsTrue (stands self.now v.0) }
        requires range { IsInRange edit.now (version_at self.now v.0) }
        ensures { result ≡ change_start edit.now (version_at self.now v.0) }
    {
        self.text(v).change_start(edit)
    }

    /// How many bytes an edit takes away from a version.
    pub fn change_removed(&self, v: Version, edit: &Edit) -> u32
        requires stands { IsTrue (stands self.now v.0) }
        requires range { IsInRange edit.now (version_at self.now v.0) }
        ensures { result ≡ change_removed edit.now (version_at self.now v.0) }
    {
        self.text(v).change_removed(edit)
    }

    // A version.
    fn text(&self, v: Version) -> &SharedText
        requires { IsTrue (stands self.now v.0) }
        ensures lines { result.now ≡ version_at self.now v.0 }
        ensures text { IsText result.now }
    {
        &self.versions[v.0 as usize - 1]
    }
}
