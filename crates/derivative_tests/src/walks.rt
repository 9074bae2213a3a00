// Where codes lead.
ghost use Rattle.std.specs.Prelude.{◌≡◌, ◌<◌};

use crate::samples::{Sample, derivatives};
use crate::schemas::known;
use derivatives::{Derivatives, Place, State};
use outside::Steps;
use pattern_intern::{Node, PatternId, Pool};
use skeleton::Code;
use std::alloc::{AllocError, Global};
use std::marker::Brand;
use std::sync::ledger::{Blank, Ledger};
use std::test::Fail;

/// What an open element still wants.
#[derive(Clone, Copy)]
pub(crate) enum Wanted {
    /// The content of the first element.
    Content,
    Nothing,
}

/// Where codes lead.
#[derive(Clone, Copy)]
pub(crate) enum Lead {
    Nowhere,
    /// To a place, and what is wanted there of each open element, of the innermost first. Nothing more need follow where none is open.
    To(Place, &'static [Wanted]),
    /// Where more must follow. So many patterns are made at most.
    On(usize),
}

/// The state after the code, none where it leads nowhere or its positions are out of range.
fn follow<L: Ledger>(
    derivatives: &mut Derivatives,
    state: State,
    code: Code,
    steps: &mut Steps<L>,
) -> Result<Option<State>, AllocError> {
    let place = state.place;
    let pattern = known(derivatives.schema().pool(), state.pattern);
    if derivatives.is_in_range(code) {
        derivatives.step(State { place, pattern }, code, steps)
    } else {
        Ok(None)
    }
}

/// The state after the codes, none where they lead nowhere.
fn walk<L: Ledger>(
    derivatives: &mut Derivatives,
    codes: &[Code],
    blank: Blank,
) -> Result<Option<State>, AllocError>
    requires name { blank.name ≡ L.name }
    requires parts { blank.parts ≡ L.parts }
    requires some { 0 < L.parts }
{
    let mut steps: Steps<L> = Steps::new(blank);
    let mut state = derivatives.start();
    for code in codes {
        match follow(derivatives, state, *code, &mut steps)? {
            Some(next) => state = next,
            None => return Ok(None),
        }
    }
    Ok(Some(state))
}

/// What is wanted inside the innermost element, and what after it.
fn parts(pool: &Pool, pattern: PatternId) -> Option<(PatternId, PatternId)> {
    match pool.node(known(pool, pattern)) {
        Node::After(inside, behind) => Some((inside, behind)),
        _ => None,
    }
}

/// The content of the first element, or the start where there is none.
fn content(derivatives: &Derivatives) -> PatternId {
    let schema = derivatives.schema();
    if schema.element_count() > 0 {
        schema.element_content(0)
    } else {
        schema.start()
    }
}

/// Whether the pattern wants this of each open element, of the innermost first.
fn wants(derivatives: &Derivatives, pattern: PatternId, open: &[Wanted]) -> bool {
    let pool = derivatives.schema().pool();
    let mut rest = pattern;
    for wanted in open {
        let expected = match wanted {
            Wanted::Content => content(derivatives),
            Wanted::Nothing => pool.empty(),
        };
        match parts(pool, rest) {
            Some((inside, behind)) if inside == expected => rest = behind,
            _ => return false,
        }
    }
    rest == pool.empty()
}

fn accepts(derivatives: &Derivatives, state: State) -> bool {
    let place = state.place;
    let pattern = known(derivatives.schema().pool(), state.pattern);
    derivatives.accepts(State { place, pattern })
}

/// Whether this is where the codes were to lead.
fn is_there(derivatives: &Derivatives, state: Option<State>, lead: Lead) -> bool {
    match (state, lead) {
        (None, Lead::Nowhere) => true,
        (Some(state), Lead::To(place, open)) => {
            state.place == place
                && wants(derivatives, state.pattern, open)
                && accepts(derivatives, state) == open.is_empty()
        }
        (Some(state), Lead::On(most)) => {
            !accepts(derivatives, state) && derivatives.schema().pool().len() <= most
        }
        _ => false,
    }
}

fn leads_there(derivatives: &mut Derivatives, codes: &[Code], lead: Lead) -> Result<bool, Fail> {
    let state = walk::<Brand>(derivatives, codes, Blank::new(1))?;
    Ok(is_there(derivatives, state, lead))
}

/// Whether the codes lead there from the start of the sample.
pub(crate) fn leads(
    alloc: Global,
    sample: Sample,
    codes: &[Code],
    expected: Lead,
) -> Result<bool, Fail> {
    let mut derivatives = derivatives(alloc, sample)?;
    let holds = leads_there(&mut derivatives, codes, expected);
    drop(derivatives);
    holds
}

/// What the pattern may take next.
#[derive(Clone, Copy, PartialEq)]
pub(crate) struct NextPieces {
    pub(crate) element: bool,
    pub(crate) text: bool,
}

fn takes_there(derivatives: &mut Derivatives, codes: &[Code]) -> Result<Option<NextPieces>, Fail> {
    let Some(state) = walk::<Brand>(derivatives, codes, Blank::new(1))? else {
        return Ok(None);
    };
    let pattern = known(derivatives.schema().pool(), state.pattern);
    let text = derivatives.takes_text(pattern)?;
    let element = derivatives.takes_element(pattern)?;
    Ok(Some(NextPieces { element, text }))
}

/// What may be taken after the codes from the start of the sample, none where they lead nowhere.
pub(crate) fn takes(
    alloc: Global,
    sample: Sample,
    codes: &[Code],
) -> Result<Option<NextPieces>, Fail> {
    let mut derivatives = derivatives(alloc, sample)?;
    let taken = takes_there(&mut derivatives, codes);
    drop(derivatives);
    taken
}
