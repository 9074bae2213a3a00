// The code of an event.
ghost use Rattle.std.specs.Prelude.{IfSome, IfNone};
ghost use Rattle.rng_model.specs.Codes.{IsCode};
ghost use Rattle.skeleton.specs.Views.{code_of, event_of};
ghost use Rattle.event_codes.specs.Positions.{lists_of, HasNoCode};

use name_universe::Universe;
use skeleton::{Code, Event};
use text_atoms::Atoms;

/// The code of an event: the positions of its name and its text in the lists. None where one of them isn't there.
pub fn find_code(universe: &Universe, atoms: &Atoms, event: &Event) -> Option<Code>
    ensures found { IfSome result (λ code. IsCode (lists_of universe.now atoms.now) (event_of event.now) (code_of code)) }
    ensures absent { IfNone result (HasNoCode (lists_of universe.now atoms.now) (event_of event.now)) }
{
    match event {
        Event::Body => Some(Code::Body),
        Event::Closing => Some(Code::Closing),
        Event::Chars(text) => Some(Code::Chars(atoms.find(text.as_str())?)),
        Event::Attr(name, text) => {
            let name = universe.find_attribute(name)?;
            let text = atoms.find(text.as_str())?;
            Some(Code::Attr(name, text))
        }
        Event::Opening(name) => Some(Code::Opening(universe.find_element(name)?)),
    }
}
