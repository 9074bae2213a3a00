// Derivatives by codes.
ghost use Rattle.std.specs.Prelude.{◌≡◌, ◌≢◌, ◌↔◌, ◌<◌, ◌+◌, IsTrue, IfOk, IfNone, IfSome, length, slice_index_or, []};
ghost use Rattle.rng_model.specs.Matching.{nullable};
ghost use Rattle.rng_model.specs.Patterns.{not_allowed};
ghost use Rattle.rng_model.specs.Codes.{Opening, Attr, Body, Chars, Closing, IsInRange};
ghost use Rattle.rng_model.specs.Constructors.{choice_of};
ghost use Rattle.rng_model.specs.Derivatives as derivative;
ghost use Rattle.rng_model.specs.States.{no_name};
ghost use Rattle.table_laws.specs.Reaching.{start_state};
ghost use Rattle.skeleton.specs.Views.{code_of};
ghost use Rattle.pattern_intern.specs.Stored.{Extends, count, tree_at};
ghost use Rattle.derivatives.specs.Views.{lists, machine, state_of};
ghost use Rattle.derivatives.specs.Steps.{Decides, IsNext, Keeps, LeadsTo, LeadsNowhere};

use crate::attribute::attribute_step;
use crate::closing::{close, ending, fresh_ending};
use crate::one_names::OneNames;
use crate::opening::opening;
use crate::remainder_sets::RemainderSets;
use crate::results::Results;
use crate::states::{Place, State};
use crate::text::text_step;
use crate::text_results::TextResults;
use crate::visits::Visits;
use derivative_laws::acceptance_is_matching;
use name_universe::Universe;
use outside::Steps;
use pattern_intern::{PatternId, Pool, Schema};
use skeleton::Code;
use std::alloc::{AllocError, Global};
use std::marker::Model;
use std::sync::ledger::Ledger;
use text_atoms::{Atoms, is_white};

// Whether the pattern is notAllowed.
fn is_not_allowed(pool: &Pool, id: PatternId) -> bool
    requires { id.0 < count pool.now }
    ensures { IsTrue result ↔ (tree_at pool.now id.0 ≡ not_allowed) }
{
    let _apart = pool.len();
    id == pool.not_allowed()
}

/// A schema with its universe and atoms, over which codes lead from state to state. Its pool grows with each step. The functions'
/// results within a step stand in tables that are cleared at the next. What patterns are after a tag, which may take no text and what
/// choices take of texts is kept for all steps, and so is what patterns may open, whatever the name, until that is too much.
#[derive(Drop)]
pub struct Derivatives {
    pub(crate) schema: Schema,
    pub(crate) universe: Universe,
    atoms: Atoms,
    kept: Results,
    texts: TextResults,
    closed: Results,
    pub(crate) openings: RemainderSets,
    one_names: OneNames,
    /// Patterns that may take no text.
    pub(crate) textless: Visits,
    /// Patterns that may take no attribute of one name. It is cleared for each name.
    pub(crate) nameless: Visits,
}

impl Model for Derivatives {
    ghost use Rattle.std.specs.Coded.{codes};
    ghost use Rattle.pattern_intern.specs.Schemas.{numbered_code};
    ghost use Rattle.rng_model.specs.Derivatives.{close};
    ghost use Rattle.value_sets.specs.Numbers.{AreSets};
    ghost use Rattle.derivatives.specs.Kept.{AreRight};
    ghost use Rattle.derivatives.specs.OneNames.{AreOne};
    ghost use Rattle.derivatives.specs.Remainders.{AreSets as AreRemainderSets};
    ghost use Rattle.derivatives.specs.Takes.{has_text};
    ghost use Rattle.derivatives.specs.Views.{Machine, machine};
    ghost use Rattle.derivatives.specs.Visits.{AreBare};

    ghost Value = { Machine };

    ghost coded = { Prim.hlevel (codes, numbered_code) };

    ghost view = { λ d. machine d.schema d.universe d.atoms };

    ghost invariant = { λ d. AreRight close d.schema.pool d.closed × AreSets d.schema.pool d.texts.choices × AreRemainderSets d.schema d.openings × AreBare has_text d.schema.pool d.textless × AreOne d.schema d.universe.elements.names d.one_names };
}

impl Derivatives {
    /// The derivatives of a schema. It takes no memory; a step takes its memory from the allocator of the schema's pool.
    pub fn new(schema: Schema, universe: Universe, atoms: Atoms) -> Derivatives
        ensures { result ≡ machine schema universe atoms }
    {
        let alloc = schema.allocator();
        Derivatives {
            schema,
            universe,
            atoms,
            kept: Results::new(alloc),
            texts: TextResults::new(alloc),
            closed: Results::new(alloc),
            openings: RemainderSets::new(alloc),
            one_names: OneNames::new(alloc),
            textless: Visits::new(alloc),
            nameless: Visits::new(alloc),
        }
    }

    /// The schema.
    pub fn schema(&self) -> &Schema
        ensures { result.now ≡ self.now.numbered }
    {
        &self.schema
    }

    /// The universe of names.
    pub fn universe(&self) -> &Universe
        ensures { result.now ≡ self.now.universe }
    {
        &self.universe
    }

    /// The texts.
    pub fn atoms(&self) -> &Atoms
        ensures { result.now ≡ self.now.atoms }
    {
        &self.atoms
    }

    /// Whether the code's positions are below the lengths of the lists of names and atoms, which is the condition of `step`.
    pub fn is_in_range(&self, code: Code) -> bool
        ensures { IsTrue result ↔ IsInRange (lists self.now) (code_of code) }
    {
        let texts = self.atoms.len();
        match code {
            Code::Opening(name) => name < self.universe.elements().len(),
            Code::Attr(name, text) => name < self.universe.attributes().len() && text < texts,
            Code::Chars(text) => text < texts,
            Code::Body | Code::Closing => true,
        }
    }

    /// The allocator that steps take their memory from.
    pub fn allocator(&self) -> Global {
        self.schema.allocator()
    }

    /// The state at the start of a document.
    pub fn start(&self) -> State
        ensures within { result.pattern.0 < count self.now.numbered.pool }
        ensures state { state_of self.now.numbered.pool result ≡ start_state self.now.numbered.schema }
    {
        State {
            place: Place::Fresh,
            pattern: self.schema.start(),
        }
    }

    /// Whether nothing more need follow. Where the schema breaks no rule, a document whose codes lead to the state is matched exactly
    /// then (section Semantics). No memory is taken.
    pub fn accepts(&self, state: State) -> bool
        requires { state.pattern.0 < count self.now.numbered.pool }
        ensures nullable { result ≡ nullable (tree_at self.now.numbered.pool state.pattern.0) }
        ensures law { Decides self.now state result }
    {
        let _names = self.universe.attributes();
        acceptance_is_matching();
        self.schema.pool().nullable(state.pattern)
    }

    /// The state after a code, none where no document goes on so. It counts one step. Where memory is wanting, all numbers still stand for
    /// their patterns.
    pub fn step<L: Ledger>(
        &mut self,
        state: State,
        code: Code,
        steps: &mut Steps<L>,
    ) -> Result<Option<State>, AllocError>
        requires within { state.pattern.0 < count self.old.numbered.pool }
        requires in_range { IsInRange (lists self.old) (code_of code) }
        ensures state { IfOk result (λ r. IfSome r (λ t. LeadsTo self.old self.new state (code_of code) t)) }
        ensures none { IfOk result (λ r. IfNone r (LeadsNowhere self.old state (code_of code))) }
        ensures kept { Extends self.old.numbered.pool self.new.numbered.pool }
        ensures same { (self.new.numbered.schema ≡ self.old.numbered.schema) × (self.new.universe ≡ self.old.universe) × (self.new.atoms ≡ self.old.atoms) }
        ensures ticks { steps.new ≡ steps.old + 1 }
    {
        steps.tick();
        match self.next(state, code)? {
            Some(next) => Ok(self.allowed(next)),
            None => Ok(None),
        }
    }

    // The state, unless its pattern is notAllowed.
    fn allowed(&self, state: State) -> Option<State>
        requires { state.pattern.0 < count self.now.numbered.pool }
        ensures some { IfSome result (λ t. (t ≡ state) × (tree_at self.now.numbered.pool state.pattern.0 ≢ not_allowed)) }
        ensures none { IfNone result (tree_at self.now.numbered.pool state.pattern.0 ≡ not_allowed) }
    {
        if is_not_allowed(self.schema.pool(), state.pattern) {
            None
        } else {
            Some(state)
        }
    }

    // The state after a code, also where its pattern is notAllowed; none where the place doesn't allow the code.
    fn next(&mut self, state: State, code: Code) -> Result<Option<State>, AllocError>
        requires within { state.pattern.0 < count self.old.numbered.pool }
        requires in_range { IsInRange (lists self.old) (code_of code) }
        ensures some { IfOk result (λ r. IfSome r (λ t. IsNext self.old self.new state (code_of code) t)) }
        ensures none { IfOk result (λ r. IfNone r (LeadsNowhere self.old state (code_of code))) }
        ensures keeps { Keeps self.old self.new }
    {
        match code {
            Code::Opening(name) => self.open(state, name),
            Code::Attr(name, text) => self.attribute(state, name, text),
            Code::Body => self.body(state),
            Code::Chars(text) => self.chars(state, text),
            Code::Closing => self.end(state),
        }
    }

    // After an element's name.
    fn open(&mut self, state: State, name: usize) -> Result<Option<State>, AllocError>
        requires within { state.pattern.0 < count self.old.numbered.pool }
        requires name { name < length self.old.universe.elements.names }
        ensures some { IfOk result (λ r. IfSome r (λ t. IsNext self.old self.new state (Opening name) t)) }
        ensures none { IfOk result (λ r. IfNone r (LeadsNowhere self.old state (Opening name))) }
        ensures keeps { Keeps self.old self.new }
    {
        match state.place {
            Place::Tag(_) => Ok(None),
            Place::Fresh | Place::AfterText | Place::AfterElement => {
                let pattern = self.opened(state.pattern, name)?;
                let place = Place::Tag(0);
                Ok(Some(State { place, pattern }))
            }
        }
    }

    // After an attribute.
    fn attribute(
        &mut self,
        state: State,
        name: usize,
        text: usize,
    ) -> Result<Option<State>, AllocError>
        requires within { state.pattern.0 < count self.old.numbered.pool }
        requires name { name < length (lists self.old).attributes }
        requires text { text < length (lists self.old).atoms }
        ensures some { IfOk result (λ r. IfSome r (λ t. IsNext self.old self.new state (Attr name text) t)) }
        ensures none { IfOk result (λ r. IfNone r (LeadsNowhere self.old state (Attr name text))) }
        ensures keeps { Keeps self.old self.new }
    {
        match state.place {
            Place::Tag(least) if least <= name => {
                let pattern = self.attributed(state.pattern, name, text)?;
                let _names = self.universe.attributes().len();
                let place = Place::Tag(name + 1);
                Ok(Some(State { place, pattern }))
            }
            _ => Ok(None),
        }
    }

    // After the end of a tag.
    fn body(&mut self, state: State) -> Result<Option<State>, AllocError>
        requires { state.pattern.0 < count self.old.numbered.pool }
        ensures some { IfOk result (λ r. IfSome r (λ t. IsNext self.old self.new state Body t)) }
        ensures none { IfOk result (λ r. IfNone r (LeadsNowhere self.old state Body)) }
        ensures keeps { Keeps self.old self.new }
    {
        match state.place {
            Place::Tag(_) => {
                let pattern = close(&mut self.schema, &mut self.closed, state.pattern)?;
                let place = Place::Fresh;
                Ok(Some(State { place, pattern }))
            }
            Place::Fresh | Place::AfterText | Place::AfterElement => Ok(None),
        }
    }

    // After a text, which isn't white space alone.
    fn chars(&mut self, state: State, text: usize) -> Result<Option<State>, AllocError>
        requires within { state.pattern.0 < count self.old.numbered.pool }
        requires text { text < length (lists self.old).atoms }
        ensures some { IfOk result (λ r. IfSome r (λ t. IsNext self.old self.new state (Chars text) t)) }
        ensures none { IfOk result (λ r. IfNone r (LeadsNowhere self.old state (Chars text))) }
        ensures keeps { Keeps self.old self.new }
    {
        match state.place {
            Place::Fresh | Place::AfterElement => {
                if is_white(self.atoms.get(text).as_str()) {
                    return Ok(None);
                }
                let pattern = self.said(state.pattern, text)?;
                let place = Place::AfterText;
                Ok(Some(State { place, pattern }))
            }
            Place::Tag(_) | Place::AfterText => Ok(None),
        }
    }

    // After the end of an element.
    fn end(&mut self, state: State) -> Result<Option<State>, AllocError>
        requires { state.pattern.0 < count self.old.numbered.pool }
        ensures some { IfOk result (λ r. IfSome r (λ t. IsNext self.old self.new state Closing t)) }
        ensures none { IfOk result (λ r. IfNone r (LeadsNowhere self.old state Closing)) }
        ensures keeps { Keeps self.old self.new }
    {
        let place = Place::AfterElement;
        match state.place {
            Place::Tag(_) => Ok(None),
            Place::Fresh => {
                let pattern = self.ended_fresh(state.pattern)?;
                Ok(Some(State { place, pattern }))
            }
            Place::AfterText | Place::AfterElement => {
                let pattern = self.ended(state.pattern)?;
                Ok(Some(State { place, pattern }))
            }
        }
    }

    // What may follow an element's name.
    fn opened(&mut self, pattern: PatternId, name: usize) -> Result<PatternId, AllocError>
        requires inside { pattern.0 < count self.old.numbered.pool }
        requires name { name < length (lists self.old).elements }
        ensures within { IfOk result (λ r. r.0 < count self.new.numbered.pool) }
        ensures made { IfOk result (λ r. tree_at self.new.numbered.pool r.0 ≡ derivative.opening self.old.numbered.schema
            (slice_index_or (lists self.old).elements name no_name) (tree_at self.old.numbered.pool pattern.0)) }
        ensures keeps { Keeps self.old self.new }
    {
        self.one_names.find(&self.schema, &self.universe)?;
        let position = name;
        let name = self.universe.elements().get(position);
        opening(
            &mut self.schema,
            &mut self.openings,
            &self.one_names,
            name,
            position,
            pattern,
        )
    }

    // What may follow an attribute.
    fn attributed(
        &mut self,
        pattern: PatternId,
        name: usize,
        text: usize,
    ) -> Result<PatternId, AllocError>
        requires inside { pattern.0 < count self.old.numbered.pool }
        requires name { name < length (lists self.old).attributes }
        requires text { text < length (lists self.old).atoms }
        ensures within { IfOk result (λ r. r.0 < count self.new.numbered.pool) }
        ensures made { IfOk result (λ r. tree_at self.new.numbered.pool r.0 ≡ derivative.attribute_step
            (slice_index_or (lists self.old).attributes name no_name) (slice_index_or (lists self.old).atoms text [])
            (tree_at self.old.numbered.pool pattern.0)) }
        ensures keeps { Keeps self.old self.new }
    {
        self.kept.clear();
        self.texts.clear();
        let name = self.universe.attributes().get(name);
        let text = self.atoms.get(text);
        attribute_step(
            &mut self.schema,
            &mut self.kept,
            &mut self.texts,
            name,
            text,
            pattern,
        )
    }

    // What may follow a text.
    fn said(&mut self, pattern: PatternId, text: usize) -> Result<PatternId, AllocError>
        requires inside { pattern.0 < count self.old.numbered.pool }
        requires text { text < length (lists self.old).atoms }
        ensures within { IfOk result (λ r. r.0 < count self.new.numbered.pool) }
        ensures made { IfOk result (λ r. tree_at self.new.numbered.pool r.0 ≡ derivative.text_step
            (slice_index_or (lists self.old).atoms text []) (tree_at self.old.numbered.pool pattern.0)) }
        ensures keeps { Keeps self.old self.new }
    {
        self.texts.clear();
        let text = self.atoms.get(text);
        text_step(&mut self.schema, &mut self.texts, text, pattern)
    }

    // What may follow the end of an element after its last text or element.
    fn ended(&mut self, pattern: PatternId) -> Result<PatternId, AllocError>
        requires { pattern.0 < count self.old.numbered.pool }
        ensures within { IfOk result (λ r. r.0 < count self.new.numbered.pool) }
        ensures made { IfOk result (λ r. tree_at self.new.numbered.pool r.0 ≡ derivative.ending (tree_at self.old.numbered.pool pattern.0)) }
        ensures keeps { Keeps self.old self.new }
    {
        ending(&mut self.schema, pattern)
    }

    // What may follow the end of an element in which there was nothing, or an empty text.
    fn ended_fresh(&mut self, pattern: PatternId) -> Result<PatternId, AllocError>
        requires { pattern.0 < count self.old.numbered.pool }
        ensures within { IfOk result (λ r. r.0 < count self.new.numbered.pool) }
        ensures made { IfOk result (λ r. tree_at self.new.numbered.pool r.0 ≡ derivative.ending
            (choice_of (tree_at self.old.numbered.pool pattern.0) (derivative.text_step [] (tree_at self.old.numbered.pool pattern.0)))) }
        ensures keeps { Keeps self.old self.new }
    {
        self.texts.clear();
        fresh_ending(&mut self.schema, &mut self.texts, pattern)
    }
}
