// The one name of the class of a definition.
ghost use Rattle.std.specs.Prelude.{◌≡◌, ◌==◌, ◌<◌, [], length, IfSome};
ghost use Rattle.rng_model.specs.Classes.{in_class};
ghost use Rattle.name_classes.specs.Views.{class_of};
ghost use Rattle.name_classes.specs.declared.part.Part.TheVariants as variant;
ghost use Rattle.pattern_intern.specs.Schemas.{definition_at};
ghost use Rattle.rng_model.specs.Names as names;
ghost use Rattle.derivatives.specs.OneNames.{AreOne, IsOne, Tell};

use name_classes::{Name, NameClass, Part};
use name_universe::Universe;
use pattern_intern::Schema;
use std::alloc::{AllocError, Global};
use std::marker::Model;

/// For element definitions whose class is one name, the position of the name in the universe. At first none is found.
#[derive(Drop)]
pub(crate) struct OneNames {
    positions: Vec<Option<usize>>,
}

impl Model for OneNames {
    ghost use Rattle.std.specs.Prelude.{List, Option, ℕ};

    ghost Value = { List (Option ℕ) };

    ghost view = { λ n. n.positions.items };
}

// The name of a part that is one.
fn one_name(part: &Part) -> Option<&Name>
    ensures { IfSome result (λ n. part.now ≡ variant.One n.now) }
{
    match part {
        Part::One(name) => Some(name),
        _ => None,
    }
}

// The position of the one name of a class, none where the class is another.
fn position(universe: &Universe, class: &NameClass) -> Option<usize>
    ensures { IfSome result (λ p. IsOne universe.now.elements.names (class_of class.now) p) }
{
    let _names = universe.elements();
    let [part] = class.parts() else {
        return None;
    };
    match one_name(part) {
        Some(name) => universe.find_element(name),
        None => None,
    }
}

impl OneNames {
    /// None. It takes its memory from `alloc` as it grows.
    pub(crate) fn new(alloc: Global) -> OneNames
        ensures { result ≡ [] }
    {
        OneNames {
            positions: Vec::new(alloc),
        }
    }

    /// Finds those of all definitions, as far as there is memory.
    pub(crate) fn find(&mut self, schema: &Schema, universe: &Universe) -> Result<(), AllocError>
        requires { AreOne schema.now universe.now.elements.names self.old }
        ensures { AreOne schema.now universe.now.elements.names self.new }
    {
        for definition in self.positions.len()..schema.element_count() {
            let position = position(universe, schema.element_class(definition));
            self.positions.push(position)?;
        }
        Ok(())
    }

    /// Whether the name, which stands at the position in the universe, is in the class of the definition.
    pub(crate) fn has(
        &self,
        schema: &Schema,
        definition: usize,
        name: &Name,
        position: usize,
    ) -> bool
        requires definition { definition < length schema.now.schema.elements }
        requires tell { Tell schema.now name.now position self.now }
        ensures { result ≡ in_class name.now (definition_at schema.now definition).class }
    {
        match self.positions.get(definition) {
            Some(Some(only)) => position == *only,
            _ => schema.element_class(definition).contains(name),
        }
    }
}
