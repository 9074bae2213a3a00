// The least of several places.
ghost use Rattle.std.specs.Prelude.{◌≡◌};
ghost use Rattle.simple_form_laws.specs.Faults.{place_if};
ghost use Rattle.name_resolution.specs.Least.{least, lesser};

/// The lesser of two places, each of which may be missing.
pub fn lesser(a: Option<usize>, b: Option<usize>) -> Option<usize>
    ensures { result ≡ lesser a b }
{
    match (a, b) {
        (None, _) => b,
        (_, None) => a,
        (Some(a), Some(b)) => Some(a.min(b)),
    }
}

/// The place, where the test is passed.
pub(crate) fn place_if(holds: bool, at: usize) -> Option<usize>
    ensures { result ≡ least (place_if holds at) }
{
    if holds { Some(at) } else { None }
}
