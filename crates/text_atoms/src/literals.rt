// The literals of a simple form.
ghost use Rattle.std.specs.Prelude.{◌≡◌, ◌⊎◌, ◌↔◌, true, false, [], ◌∷◌, ◌++◌, IsTrue, Contains, OnOk, OnErr};
ghost use Rattle.rng_model.specs.Kinds.{Kind as KindValue};
ghost use Rattle.text_atoms.specs.Kinds.{kind_of};
ghost use Rattle.text_atoms.specs.Literals.{members_of};

use crate::kind::Kind;
use crate::text::Text;
use std::alloc::{AllocError, Global};
use std::marker::Model;

const KIND_COUNT: usize = 8;

/// The literals of a simple form: the kind and text of each value, whether an `empty` stands inside an attribute, and the kinds that stand in
/// values and datatypes, excepts included.
#[derive(Drop)]
pub struct Literals {
    members: Vec<(Kind, Text)>,
    has_empty: bool,
    marked: [bool; KIND_COUNT],
}

impl Model for Literals {
    ghost use Rattle.std.specs.Prelude.{◌≡◌, length};
    ghost use Rattle.rng_model.specs.Atoms.{Literals as LiteralsValue};
    ghost use Rattle.text_atoms.specs.Literals.{members_of, marked_kinds};

    ghost Value = { LiteralsValue };

    ghost view = { λ l. record { members = members_of l.members.items; has_empty = l.has_empty; kinds = marked_kinds l.marked } };
}

impl Literals {
    /// No member, no `empty` and no kind. It takes its memory from `alloc` as it grows.
    #[tactic(auto, unfolding(crate::specs::Literals::marked_kinds))]
    pub fn new(alloc: Global) -> Literals
        ensures { result ≡ record { members = []; has_empty = false; kinds = [] } }
    {
        Literals {
            members: Vec::new(alloc),
            has_empty: false,
            marked: [false; KIND_COUNT],
        }
    }

    /// Adds a member at the end, and no kind. Where memory is wanting, the literals stay as before and the text is dropped.
    pub fn push(&mut self, kind: Kind, text: Text) -> Result<(), AllocError>
        ensures ok { OnOk result (self.new ≡ record self.old { members = self.old.members ++ (kind_of kind, text) ∷ [] }) }
        ensures err { OnErr result (self.new ≡ self.old) }
    {
        self.members.push((kind, text))?;
        Ok(())
    }

    /// Notes that an `empty` stands inside an attribute.
    pub fn mark_empty(&mut self)
        ensures { self.new ≡ record self.old { has_empty = true } }
    {
        self.has_empty = true;
    }

    /// Notes that the kind stands in a value or a datatype.
    pub fn mark_kind(&mut self, kind: Kind)
        ensures marked { (k : KindValue) → Contains self.new.kinds k ↔ (Contains self.old.kinds k ⊎ (k ≡ kind_of kind)) }
        ensures members { self.new.members ≡ self.old.members }
        ensures has_empty { self.new.has_empty ≡ self.old.has_empty }
    {
        self.marked[kind as usize] = true;
    }

    /// Whether the kind was noted.
    pub fn has_kind(&self, kind: Kind) -> bool
        ensures { IsTrue result ↔ Contains self.now.kinds (kind_of kind) }
    {
        self.marked[kind as usize]
    }

    /// The members in their order.
    pub(crate) fn members(&self) -> &[(Kind, Text)]
        ensures { members_of result.now ≡ self.now.members }
    {
        self.members.as_slice()
    }

    /// Whether an `empty` was noted.
    pub fn has_empty(&self) -> bool
        ensures { result ≡ self.now.has_empty }
    {
        self.has_empty
    }
}
