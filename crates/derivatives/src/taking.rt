// What a table need not try.
ghost use Rattle.std.specs.Prelude.{◌≡◌, ◌↔◌, ◌<◌, [], false, length, slice_index_or, IfOk};
ghost use Rattle.rng_model.specs.Derivatives.{opening, text_step};
ghost use Rattle.rng_model.specs.Names.{Name};
ghost use Rattle.rng_model.specs.Patterns.{not_allowed};
ghost use Rattle.rng_model.specs.States.{no_name};
ghost use Rattle.rng_model.specs.Texts.{Text};
ghost use Rattle.table_laws.specs.Remainders.{remainders, takes_name};
ghost use Rattle.pattern_intern.specs.Stored.{Extends, count, tree_at};
ghost use Rattle.derivatives.specs.Takes.{has_text};

use crate::name_taken::takes_name;
use crate::opening::opens;
use crate::stepper::Derivatives;
use crate::text_taken::takes_text;
use pattern_intern::PatternId;
use std::alloc::AllocError;

impl Derivatives {
    /// Whether the pattern may take an attribute of the name at the position, if its text is right. Where it may not, an attribute of this
    /// name leads nowhere, whatever the text.
    pub fn takes_name(&mut self, pattern: PatternId, name: usize) -> Result<bool, AllocError>
        requires within { pattern.0 < count self.old.numbered.pool }
        requires name { name < length self.old.universe.attributes.names }
        ensures takes_name { IfOk result (λ b. b ≡ takes_name (slice_index_or self.old.universe.attributes.names name no_name) (tree_at self.old.numbered.pool pattern.0)) }
        ensures same { self.new ≡ self.old }
    {
        let name = self.universe.attributes().get(name);
        takes_name(self.schema.pool(), &mut self.nameless, name, pattern)
    }

    /// Whether the pattern may take a text, if it is the right one. Where it may not, each text leads nowhere.
    pub fn takes_text(&mut self, pattern: PatternId) -> Result<bool, AllocError>
        requires { pattern.0 < count self.old.numbered.pool }
        ensures has_text { IfOk result (λ b. b ≡ has_text (tree_at self.old.numbered.pool pattern.0)) }
        ensures nowhere { IfOk result (λ b. b ≡ false → (s : Text) → text_step s (tree_at self.old.numbered.pool pattern.0) ≡ not_allowed) }
        ensures same { self.new ≡ self.old }
    {
        takes_text(self.schema.pool(), &mut self.textless, pattern)
    }

    /// Whether the pattern may open an element, of whatever name. Where it may not, each opening leads nowhere.
    #[tactic(auto, using(crate::proofs::Keeping::right_extends, crate::proofs::KeepingTexts::sets_extend, crate::proofs::Keeping::bare_extends, crate::proofs::OneNames::one_extends))]
    pub fn takes_element(&mut self, pattern: PatternId) -> Result<bool, AllocError>
        requires { pattern.0 < count self.old.numbered.pool }
        ensures opens { IfOk result (λ b. (b ≡ false) ↔ (remainders (tree_at self.old.numbered.pool pattern.0) ≡ [])) }
        ensures nowhere { IfOk result (λ b. b ≡ false → (name : Name) → opening self.old.numbered.schema name (tree_at self.old.numbered.pool pattern.0) ≡ not_allowed) }
        ensures kept { Extends self.old.numbered.pool self.new.numbered.pool }
        ensures same { (self.new.numbered.schema ≡ self.old.numbered.schema) × (self.new.universe ≡ self.old.universe) × (self.new.atoms ≡ self.old.atoms) }
    {
        opens(&mut self.schema, &mut self.openings, pattern)
    }
}
