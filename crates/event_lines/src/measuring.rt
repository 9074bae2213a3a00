// The measure of a text.
ghost use Rattle.std.specs.Prelude.{List};
ghost use Rattle.rng_model.specs.Events.{Event};
ghost use Rattle.event_lines.specs.Coded.{AreInRange, AreCodesOf, lists_of, events_text, IsMeasure};

use crate::counted::Measure;
use name_universe::Universe;
use skeleton::Code;
use text_atoms::Atoms;

/// The measure of the bytes that `DocumentLines::write` appends, under its condition. No memory is taken.
pub fn measure(codes: &[Code], universe: &Universe, atoms: &Atoms) -> Measure
    requires { AreInRange (lists_of universe.now atoms.now) codes.now }
    ensures { (es : List Event) → AreCodesOf (lists_of universe.now atoms.now) es codes.now → IsMeasure result (events_text es) }
{
    let mut measure = Measure { bytes: 0, sum: 0 };
    measure.add_codes(codes, universe, atoms);
    measure
}
