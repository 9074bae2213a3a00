//! The simple form of a schema, made of its tree as it is written, the faults of trees, and laws of both.
#![tactic(auto)]

ghost use Rattle.std.specs.Prelude.{◌≡◌, ℕ, ◌<◌, ◌≤◌, List, ◌∷◌, Some, length, slice_get, Contains};
ghost use Rattle.std.specs.Ordering.{nat_cmp};
ghost use Rattle.std.specs.List.Sorted.{IsStrictlySortedBy};
ghost use Rattle.rng_model.specs.Kinds.{Kind};
ghost use Rattle.rng_model.specs.Classes.{Class};
ghost use Rattle.rng_model.specs.Patterns as simple;
ghost use Rattle.rng_model.specs.Patterns.{Schema, Definition, Defines, IsSimpleForm};
ghost use Rattle.rng_model.specs.Constructors.{choice_of, group_of, interleave_of, one_or_more_of, attribute_of, data_of};
ghost use Rattle.grammar_laws.specs.Trees.{Pattern};
ghost use Rattle.grammar_laws.specs.Trees as full;
ghost use Rattle.grammar_laws.specs.Files.{SchemaFile, Full};
ghost use Rattle.simple_form_laws.specs.Parts.{Scope, part};
ghost use Rattle.simple_form_laws.specs.Meaning.{Means};
ghost use Rattle.simple_form_laws.specs.Forms.{IsFormOf, ElementToken, tree, tokens, token_of, HasRef, IsReached, new_number, renumbered, RefsIn};
ghost use Rattle.simple_form_laws.specs.Normal.{HasNormalChoices};
ghost use Rattle.simple_form_laws.specs.Faults.{Fault, HasFault, IsSimplifiable, SimplifyRefusal, Simple, LeadsTo, IsVisited, UnboundPrefix, PrefixTwice, ReservedPrefix, ClassConstraint, XmlnsAttribute, NoStart, UndefinedName, ParentOutside, CombineMixed, DefinedTwice, Loop, ExpandedTooDeep, BadValue};
ghost use Rattle.simple_form_laws.specs.Examples.{unbound, twice, reserved, constrained, xmlns_attribute, without_start, undefined, parent_outside, mixed_methods, twice_defined, looping, looping_by_two, zero_value, joined_elements, mixed_content, mixed_schema, combined, combined_schema, with_parent, parent_schema};

/// A pattern has at most one simple form where it stands.
pub fn one_meaning()
    ensures { (fs : List SchemaFile) (s : Scope) (p : Pattern) (q r : simple.Pattern) → Means fs s p q → Means fs s p r → q ≡ r }
{}

/// A schema has at most one simple form.
pub fn one_simple_form()
    ensures { (f : Full) (g h : Schema) → Simple f g → Simple f h → g ≡ h }
{}

/// The equations of the simple form have at most one solution, also for a schema with faults.
pub fn one_schema()
    ensures { (f : Full) (g h : Schema) → IsFormOf f g → IsFormOf f h → g ≡ h }
{}

/// A schema has at most one refusal: the fault of the least number, and of these the one of the least place.
pub fn one_refusal()
    ensures { (f : Full) (x y : Fault) → SimplifyRefusal f x → SimplifyRefusal f y → x ≡ y }
{}

/// A schema that has a simple form isn't refused.
pub fn no_form_with_a_refusal()
    ensures { (f : Full) (g : Schema) (x : Fault) → Simple f g → SimplifyRefusal f x → ⊥ }
{}

/// A schema without faults has a simple form. What is refused by name before, lists, parameters, foreign types and references to
/// other files, doesn't stand in it.
pub fn form_or_fault()
    ensures { (f : Full) → IsSimplifiable f → ((x : Fault) → HasFault f x → ⊥) → (g : Schema) × Simple f g }
{}

/// A pattern that leads back to itself without an element between has no simple form.
pub fn no_form_in_a_loop()
    ensures { (fs : List SchemaFile) (s : Scope) (p : Pattern) (q : simple.Pattern) →
        Means fs s p q → LeadsTo (part s p) (part s p) → ⊥ }
{}

/// What a simple form has: no After stands in its start or in a content, each reference is to one of its definitions, and each
/// choice is the ascending list of its members, each once.
pub fn what_a_form_has()
    ensures simple_form { (f : Full) (g : Schema) → IsFormOf f g → IsSimpleForm g }
    ensures start_refs { (f : Full) (g : Schema) → IsFormOf f g → (d : ℕ) → HasRef d g.start → d < length g.elements }
    ensures content_refs { (f : Full) (g : Schema) → IsFormOf f g → (c : ℕ) (e : Definition) → Defines g c e →
        (d : ℕ) → HasRef d e.content → d < length g.elements }
    ensures start_choices { (f : Full) (g : Schema) → IsFormOf f g → HasNormalChoices g.start }
    ensures content_choices { (f : Full) (g : Schema) → IsFormOf f g → (d : ℕ) (e : Definition) → Defines g d e →
        HasNormalChoices e.content }
{}

/// Each `element` of a schema has a number of its own.
pub fn own_numbers()
    ensures { (f : Full) (t : ElementToken) → Contains (tokens f) t → token_of f t.number ≡ Some t }
{}

/// Each `element` that can be reached in the simple form stands in the tree, and can be reached there too.
pub fn reached_tokens()
    ensures { (f : Full) (n : ℕ) → IsReached f n → (t : ElementToken) × (token_of f n ≡ Some t) × IsVisited (tree f) (part t.scope (full.element t.class t.content n)) }
{}

/// An element that is kept gets its place among the kept ones as its new number, and the numbers ascend as before.
pub fn new_numbers()
    ensures place { (kept : List ℕ) (n : ℕ) → IsStrictlySortedBy nat_cmp kept → Contains kept n →
        slice_get kept (new_number kept n) ≡ Some n }
    ensures ascending { (kept : List ℕ) (m n : ℕ) → Contains kept m → Contains kept n → m < n →
        new_number kept m < new_number kept n }
{}

/// A pattern with new numbers is what is made of its parts with their new numbers.
pub fn renumbered_parts()
    ensures choice { (kept : List ℕ) (p q : simple.Pattern) → RefsIn (Contains kept) p → RefsIn (Contains kept) q →
        renumbered (new_number kept) (choice_of p q)
        ≡ choice_of (renumbered (new_number kept) p) (renumbered (new_number kept) q) }
    ensures group { (h : ℕ → ℕ) (p q : simple.Pattern) →
        renumbered h (group_of p q) ≡ group_of (renumbered h p) (renumbered h q) }
    ensures interleave { (h : ℕ → ℕ) (p q : simple.Pattern) →
        renumbered h (interleave_of p q) ≡ interleave_of (renumbered h p) (renumbered h q) }
    ensures one_or_more { (h : ℕ → ℕ) (p : simple.Pattern) →
        renumbered h (one_or_more_of p) ≡ one_or_more_of (renumbered h p) }
    ensures attribute { (h : ℕ → ℕ) (c : Class) (p : simple.Pattern) →
        renumbered h (attribute_of c p) ≡ attribute_of c (renumbered h p) }
    ensures data_type { (h : ℕ → ℕ) (k : Kind) (p : simple.Pattern) →
        renumbered h (data_of k p) ≡ data_of k (renumbered h p) }
{}

/// Worked examples: each of these schemas is refused by this fault at this place.
pub fn table_of_faults()
    ensures unbound { SimplifyRefusal unbound (UnboundPrefix 8) }
    ensures twice { SimplifyRefusal twice (PrefixTwice 18) }
    ensures reserved { SimplifyRefusal reserved (ReservedPrefix 0) }
    ensures constrained { SimplifyRefusal constrained (ClassConstraint 12) }
    ensures xmlns_attribute { SimplifyRefusal xmlns_attribute (XmlnsAttribute 22) }
    ensures without_start { SimplifyRefusal without_start NoStart }
    ensures undefined { SimplifyRefusal undefined (UndefinedName 8) }
    ensures parent_outside { SimplifyRefusal parent_outside (ParentOutside 8) }
    ensures mixed_methods { SimplifyRefusal mixed_methods (CombineMixed 29) }
    ensures twice_defined { SimplifyRefusal twice_defined (DefinedTwice 28) }
    ensures looping { SimplifyRefusal looping (Loop 15) }
    ensures looping_by_two { SimplifyRefusal looping_by_two (Loop 14) }
    ensures zero_value { SimplifyRefusal zero_value (BadValue 12) }
{}

/// Worked examples: the simple forms of `element a { mixed { element b { empty }* } }`, of two starts that are combined, and of a
/// nested grammar that refers to its parent.
pub fn simple_forms()
    ensures mixed { Simple mixed_content mixed_schema }
    ensures combined { IsFormOf combined combined_schema }
    ensures parent { IsFormOf with_parent parent_schema }
{}

/// An element whose content is 1,025 elements or more joined by `,` is refused, and one with up to 1,024 is accepted.
pub fn joined_by_commas()
    ensures refused { (at : ℕ) (ats : List ℕ) → 1024 < length (at ∷ ats) →
        SimplifyRefusal (joined_elements (at ∷ ats)) ExpandedTooDeep }
    ensures accepted { (at : ℕ) (ats : List ℕ) → length (at ∷ ats) ≤ 1024 →
        (g : Schema) × Simple (joined_elements (at ∷ ats)) g }
{}
