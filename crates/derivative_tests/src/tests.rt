// Where codes lead, by the equations of derivatives and the table of states.
use crate::samples::Sample;
use crate::walks::{Lead, NextPieces, Wanted, leads, takes};
use Code::{Attr, Body, Chars, Closing, Opening};
use Lead::{Nowhere, On, To};
use Place::{AfterElement, AfterText, Fresh, Tag};
use Wanted::{Content, Nothing};
use derivatives::Place;
use skeleton::Code;
use std::test::Fail;

/// An element in an element, both of the first name.
const NESTED: [Code; 6] = [Opening(0), Body, Opening(0), Body, Closing, Closing];

#[test]
fn states_of_an_optional_element(rt: HostRuntime) -> Result<(), Fail> {
    // How many of the codes are taken, and where they lead.
    let rows = [
        (1, To(Tag(0), &[Content])),
        (2, To(Fresh, &[Content])),
        (3, To(Tag(0), &[Content, Nothing])),
        (4, To(Fresh, &[Content, Nothing])),
        (5, To(AfterElement, &[Nothing])),
        (6, To(AfterElement, &[])),
    ];
    for (taken, lead) in rows {
        let holds = leads(rt.alloc(), Sample::Optional, &NESTED[..taken], lead)?;
        assert!(rt; holds, "{taken}");
    }
    Ok(())
}

/// An empty element.
const EMPTY: &[Code] = &[Opening(0), Body, Closing];

/// In an element one of the second name and one of the third.
const IN_ORDER: &[Code] = &[
    Opening(0),
    Body,
    Opening(1),
    Body,
    Closing,
    Opening(2),
    Body,
    Closing,
    Closing,
];

/// In an element one of the third name and one of the second.
const TURNED: &[Code] = &[
    Opening(0),
    Body,
    Opening(2),
    Body,
    Closing,
    Opening(1),
    Body,
    Closing,
    Closing,
];

#[test]
fn ways(rt: HostRuntime) -> Result<(), Fail> {
    let accepted = To(AfterElement, &[]);
    // The texts of the ambiguous choice are `t`, which is fresh, `x` and `y`.
    let rows: [(Sample, &[Code], Lead); 14] = [
        (Sample::Optional, EMPTY, accepted),
        (Sample::Optional, &[Opening(1)], Nowhere),
        (Sample::EmptyText, EMPTY, accepted),
        (Sample::Attribute, EMPTY, accepted),
        (
            Sample::Attribute,
            &[Opening(0), Attr(0, 0), Body, Closing],
            accepted,
        ),
        (
            Sample::Attribute,
            &[Opening(0), Attr(0, 0), Attr(0, 0)],
            Nowhere,
        ),
        (Sample::Interleaved, IN_ORDER, accepted),
        (Sample::Interleaved, TURNED, accepted),
        (
            Sample::Interleaved,
            &[Opening(0), Body, Opening(2), Body, Closing, Closing],
            Nowhere,
        ),
        (
            Sample::Ambiguous,
            &[Opening(1), Body, Opening(0), Body, Chars(0)],
            Nowhere,
        ),
        (
            Sample::Ambiguous,
            &[Opening(1), Body, Opening(0), Body, Chars(1)],
            To(AfterText, &[Nothing, Nothing]),
        ),
        (
            Sample::Ambiguous,
            &[Opening(1), Body, Opening(0), Body, Chars(2)],
            To(AfterText, &[Nothing, Nothing]),
        ),
        (
            Sample::Doubled,
            &[Opening(0), Body, Opening(1), Body, Closing],
            On(1_000),
        ),
        (
            Sample::Doubled,
            &[Opening(0), Body, Opening(1), Body, Closing, Closing],
            Nowhere,
        ),
    ];
    for (i, (sample, codes, lead)) in rows.iter().enumerate() {
        let holds = leads(rt.alloc(), *sample, *codes, *lead)?;
        assert!(rt; holds, "row {i}");
    }
    Ok(())
}

#[test]
fn what_may_be_taken(rt: HostRuntime) -> Result<(), Fail> {
    // Whether an element may be opened, and whether a text may be taken.
    let rows: [(Sample, &[Code], (bool, bool)); 7] = [
        (Sample::Optional, &[], (true, false)),
        (Sample::Optional, &[Opening(0), Body], (true, false)),
        (Sample::Optional, EMPTY, (false, false)),
        (Sample::Behind, &[Opening(0)], (true, false)),
        (
            Sample::Behind,
            &[Opening(0), Body, Opening(1)],
            (false, true),
        ),
        (
            Sample::Interleaved,
            &[Opening(0), Body, Opening(1), Body],
            (false, false),
        ),
        (
            Sample::Interleaved,
            &[Opening(0), Body, Opening(1), Body, Closing],
            (true, false),
        ),
    ];
    for (i, (sample, codes, (element, text))) in rows.iter().enumerate() {
        let taken = takes(rt.alloc(), *sample, *codes)?;
        let (element, text) = (*element, *text);
        assert!(rt; taken == Some(NextPieces { element, text }), "row {i}");
    }
    Ok(())
}
