// The atoms of a schema's literals.
ghost use Rattle.std.specs.Prelude.{◌≡◌, ◌<◌, ◌==◌, ◌↔◌, List, IsTrue, Some, Contains, IfSome, IfNone, IfOk, length, slice_get};
ghost use Rattle.std.specs.List.Sorted.{IsStrictlySortedBy};
ghost use Rattle.std.specs.Ordering.{nat_cmp};
ghost use Rattle.std.specs.Cmp.Lexicographic.{slice_cmp};
ghost use Rattle.rng_model.specs.Texts.{Text as TextValue};
ghost use Rattle.rng_model.specs.Atoms.{AreAtoms, Literals as LiteralsValue};
ghost use Rattle.text_atoms.specs.Origins.{texts_of, HaveFirstRules};
ghost use Rattle.text_atoms.specs.Standing.{IsStringAtom, IsFormAtom, SomeAt, NoneBefore, StandsAt};
ghost use Rattle.text_atoms.specs.declared.origin.Origin.TheVariants.{Fresh};

use crate::literals::Literals;
use crate::origin::Origin;
use crate::origins::origins;
use crate::text::Text;
use crate::text_list::TextList;
use crate::white_space::normal_equal;
use std::alloc::{AllocError, Global};
use std::collections::BTreeMap;
use std::marker::Model;

/// The atoms of a schema's literals and the extra texts, each once, ascending by their bytes. Beside each stands its origin.
#[derive(Drop)]
pub struct Atoms {
    atoms: Vec<(Text, Origin)>,
    fresh: usize,
}

impl Model for Atoms {
    ghost use Rattle.std.specs.Prelude.{List};
    ghost use Rattle.rng_model.specs.Texts.{Text as TextValue};
    ghost use Rattle.text_atoms.specs.declared.origin.Origin.{Origin as OriginValue};
    ghost use Rattle.text_atoms.specs.Origins.{IsAtomList};

    ghost Value = { List (TextValue × OriginValue) };

    ghost view = { λ a. a.atoms.items };

    ghost invariant = { λ a. IsAtomList a.atoms.items a.fresh };
}

// The entries of a map in their order.
fn entries(alloc: Global, map: BTreeMap<Text, Origin>) -> Result<Vec<(Text, Origin)>, AllocError>
    ensures entries { IfOk result (λ v. v.items ≡ map.entries) }
    ensures ordered { IsStrictlySortedBy (slice_cmp nat_cmp) (texts_of map.entries) }
{
    map.into_iter().collect(alloc)
}

// The position of a text among ascending ones.
fn position(atoms: &[(Text, Origin)], text: &str) -> Option<usize>
    requires { IsStrictlySortedBy (slice_cmp nat_cmp) (texts_of atoms.now) }
    ensures found { IfSome result (λ i. slice_get (texts_of atoms.now) i ≡ Some text.now) }
    ensures absent { IfNone result (Contains (texts_of atoms.now) text.now → ⊥) }
{
    atoms
        .binary_search_by(|atom| atom.0.as_str().cmp(text))
        .ok()
}

// The position of the fresh text.
fn fresh_position(atoms: &[(Text, Origin)]) -> usize
    requires { (x : TextValue) × Contains atoms.now (x, Fresh) }
    ensures { (x : TextValue) × (slice_get atoms.now result ≡ Some (x, Fresh)) }
{
    for (position, atom) in atoms.iter().enumerate() {
        if let Origin::Fresh = atom.1 {
            return position;
        }
    }
    unreachable!()
}

// Whether the atom is this string literal.
fn is_string(atom: &(Text, Origin), text: &str) -> bool
    ensures { IsTrue result ↔ IsStringAtom atom.now text.now }
{
    matches!(atom.1, Origin::StringLiteral) && atom.0.as_str() == text
}

// Whether the atom is that of a token form, which is the text's normal form.
fn is_form(atom: &(Text, Origin), text: &str) -> bool
    ensures { IsTrue result ↔ IsFormAtom atom.now text.now }
{
    matches!(atom.1, Origin::TokenForm) && normal_equal(atom.0.as_str(), text)
}

// The position of a string literal among ascending texts.
fn string_position(atoms: &[(Text, Origin)], text: &str) -> Option<usize>
    requires { IsStrictlySortedBy (slice_cmp nat_cmp) (texts_of atoms.now) }
    ensures found { IfSome result (λ i. SomeAt atoms.now i (λ a. IsStringAtom a text.now)) }
    ensures absent { IfNone result (NoneBefore atoms.now (length atoms.now) (λ a. IsStringAtom a text.now)) }
{
    let place = position(atoms, text)?;
    let atom = atoms.get(place)?;
    if is_string(atom, text) {
        Some(place)
    } else {
        None
    }
}

// The position of the atom of the token form that is the text's normal form.
fn form_position(atoms: &[(Text, Origin)], text: &str) -> Option<usize>
    ensures found { IfSome result (λ i. SomeAt atoms.now i (λ a. IsFormAtom a text.now)) }
    ensures absent { IfNone result (NoneBefore atoms.now (length atoms.now) (λ a. IsFormAtom a text.now)) }
{
    for (position, atom) in atoms.iter().enumerate() {
        if is_form(atom, text) {
            return Some(position);
        }
    }
    None
}

impl Atoms {
    /// The atoms of the literals and the extra texts.
    pub fn of(alloc: Global, literals: &Literals, extra: &TextList) -> Result<Atoms, AllocError>
        ensures atoms { IfOk result (λ atoms. AreAtoms literals.now extra.now (texts_of atoms)) }
        ensures origins { IfOk result (λ atoms. HaveFirstRules literals.now extra.now atoms) }
    {
        let map = origins(alloc, literals, extra)?;
        let atoms = entries(alloc, map)?;
        let fresh = fresh_position(atoms.as_slice());
        Ok(Atoms { atoms, fresh })
    }

    /// How many atoms there are.
    pub fn len(&self) -> usize
        ensures { result ≡ length self.now }
    {
        self.atoms.len()
    }

    /// Whether there is none: there always is the fresh text.
    pub fn is_empty(&self) -> bool
        ensures { result ≡ (length self.now == 0) }
    {
        self.atoms.is_empty()
    }

    /// The text of the atom at a position, counted from 0.
    pub fn get(&self, position: usize) -> &Text
        requires { position < length self.now }
        ensures { slice_get (texts_of self.now) position ≡ Some result.now }
    {
        &self.atoms[position].0
    }

    /// The position of a text, which is none where the text is no atom.
    pub fn find(&self, text: &str) -> Option<usize>
        ensures found { IfSome result (λ i. slice_get (texts_of self.now) i ≡ Some text.now) }
        ensures absent { IfNone result (Contains (texts_of self.now) text.now → ⊥) }
    {
        position(self.atoms.as_slice(), text)
    }

    /// The position of the atom that stands for a text: a string literal stands for itself, another text whose normal form is a token form for the
    /// atom of that form, and every other text for the fresh text.
    pub fn stands_for_text(&self, text: &str) -> usize
        ensures within { result < length self.now }
        ensures stands { (l : LiteralsValue) (extra : List TextValue) → AreAtoms l extra (texts_of self.now) → HaveFirstRules l extra self.now → StandsAt l self.now text.now result }
    {
        match string_position(self.atoms.as_slice(), text) {
            Some(position) => position,
            None => form_position(self.atoms.as_slice(), text).unwrap_or(self.fresh),
        }
    }
}
