//! The joining types and the forms of letters that the lines of a file assign.
ghost use Rattle.std.specs.Prelude.{◌≡◌, ◌<◌, ◌≤◌, ℕ, ◌⊎◌, nat_le, nat_lt, ◌&&◌, length, slice_index_or};
ghost use Rattle.std.specs.Prelude.{Option, Some, None, Ok, IsSome, IsTrue, false, if◌then◌else◌};
ghost use Rattle.std.specs.Prelude.{IfOk, IfErr, OnOk, IsErrOf};
ghost use Rattle.std.specs.Option.{option_or};
ghost use Rattle.ucd.specs.declared.form.Form.{Form};
ghost use Rattle.ucd.specs.declared.joining_type.JoiningType.{JoiningType};

use crate::fault::Cause;
use crate::forms::Forms;
use crate::joining_line::Claim;
use crate::joining_type::JoiningType;
use crate::range_table::CODE_POINTS;
use std::alloc::{AllocError, Global};

/// The joining type of each code point to which a line assigns one, and the forms that lines assign.
#[derive(Drop)]
pub struct Claims {
    pub(crate) types: Vec<Option<JoiningType>>,
    pub(crate) forms: Forms,
    ghost sized: { length types.items ≡ 1114112 },
}

// Returns a list without joining types.
fn no_types(alloc: Global, len: usize) -> Result<Vec<Option<JoiningType>>, AllocError>
    ensures len { IfOk result (λ types. length types.items ≡ len) }
    ensures each { IfOk result (λ types. (c : ℕ) → slice_index_or types.items c None ≡ None) }
{
    vec![in alloc; None; len]
}

// Returns whether any code point in `first..end` has a joining type.
fn has_type(types: &[Option<JoiningType>], first: usize, end: usize) -> bool
    requires { (first ≤ end) × (end ≤ length types.now) }
    ensures some { IsTrue result
        → (c : ℕ) × (first ≤ c) × (c < end) × IsSome (slice_index_or types.now c None) }
    ensures none { result ≡ false
        → (c : ℕ) → first ≤ c → c < end → slice_index_or types.now c None ≡ None }
{
    let mut any = false;
    for c in first..end {
        if types[c].is_some() {
            any = true;
        }
    }
    any
}

// Sets the joining types of the code points in `first..end`.
fn set_types(types: &mut [Option<JoiningType>], first: usize, end: usize, joining: JoiningType)
    requires { (first ≤ end) × (end ≤ length types.old) }
    ensures { (c : ℕ) → slice_index_or types.new c None
        ≡ (if nat_le first c && nat_lt c end then Some joining else slice_index_or types.old c None) }
{
    for c in first..end {
        types[c] = Some(joining);
    }
}

impl Claims {
    ghost use Rattle.ucd.specs.JoiningFiles.{Adds, AddsValues, IsTaken, Meets, claimed_form, claimed_type};
    ghost use Rattle.ucd.specs.JoiningFiles.{form_from, type_from};

    /// Creates claims of no lines.
    pub fn new(alloc: Global) -> Result<Self, AllocError>
        ensures types { IfOk result (λ claims. (c : ℕ) → claimed_type claims c ≡ None) }
        ensures forms { IfOk result (λ claims. (key : ℕ) → claimed_form claims key ≡ None) }
    {
        let types = no_types(alloc, CODE_POINTS)?;
        Ok(Claims {
            types,
            forms: Forms::new(alloc),
        })
    }

    // Adds the joining types of a line. Fails if a code point already has one.
    fn add_types(&mut self, claim: Claim) -> Result<(), Cause>
        requires { (claim.first ≤ claim.last) × (claim.last < 1114112) }
        ensures ok { OnOk result
            (AddsValues type_from (claimed_type self.old) (claimed_type self.new) (Ok (Some claim))) }
        ensures kept { self.new.forms ≡ self.old.forms }
        ensures err { IfErr result (λ why. (why ≡ Cause.NamedBefore)
            × Meets type_from (claimed_type self.old) (Ok (Some claim))) }
    {
        let first = claim.first as usize;
        let end = claim.last as usize + 1;
        if has_type(&self.types, first, end) {
            return Err(Cause::NamedBefore);
        }
        set_types(&mut self.types, first, end, claim.joining);
        Ok(())
    }

    // Adds the form of a line, if it has one. Fails if the letter already has this form, or if memory runs
    // out.
    fn add_form(&mut self, claim: Claim) -> Result<(), Cause>
        requires { (form : Form) (letter : ℕ) → claim.form ≡ Some (form, letter) → letter < 1114112 }
        ensures ok { OnOk result
            (AddsValues form_from (claimed_form self.old) (claimed_form self.new) (Ok (Some claim))) }
        ensures kept { self.new.types.items ≡ self.old.types.items }
        ensures taken { IsErrOf result Cause.NamedBefore
            → Meets form_from (claimed_form self.old) (Ok (Some claim)) }
        ensures only { IfErr result (λ why. (why ≡ Cause.NamedBefore) ⊎ (why ≡ Cause.Memory)) }
    {
        let Some((form, letter)) = claim.form else {
            return Ok(());
        };
        let key = form.key(letter);
        if self.forms.map.contains_key(&key) {
            return Err(Cause::NamedBefore);
        }
        // The bounds come first, because no key of the map may be outside them.
        self.forms.low = self.forms.low.min(key);
        self.forms.high = self.forms.high.max(key + 1);
        match self.forms.map.insert(key, claim.last) {
            Ok(_) => Ok(()),
            Err(_) => Err(Cause::Memory),
        }
    }

    /// Adds what a line says. Fails with `NamedBefore` if one of its code points already has a joining type,
    /// or its letter already has this form. Fails with `Memory` if memory runs out. After an error, the
    /// claims must not be used.
    pub fn add(&mut self, claim: Claim) -> Result<(), Cause>
        requires range { (claim.first ≤ claim.last) × (claim.last < 1114112) }
        requires letter { (form : Form) (letter : ℕ) → claim.form ≡ Some (form, letter) → letter < 1114112 }
        ensures ok { OnOk result (Adds self.old self.new (Ok (Some claim))) }
        ensures taken { IsErrOf result Cause.NamedBefore → IsTaken self.old (Ok (Some claim)) }
        ensures only { IfErr result (λ why. (why ≡ Cause.NamedBefore) ⊎ (why ≡ Cause.Memory)) }
    {
        self.add_types(claim)?;
        self.add_form(claim)
    }
}
