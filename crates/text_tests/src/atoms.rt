// Worked examples of atoms.
use std::alloc::{AllocError, Global};
use text_atoms::{Atoms, Kind, Literals, Text, TextList, alike_atoms};

fn text(alloc: Global, characters: &str) -> Result<Text, AllocError> {
    Ok(Text::from_string(String::from_str(alloc, characters)?))
}

/// The literals, with their kinds.
fn literals_of(alloc: Global, members: &[(Kind, &str)]) -> Result<Literals, AllocError> {
    let mut literals = Literals::new(alloc);
    for (kind, characters) in members {
        literals.push(*kind, text(alloc, characters)?)?;
        literals.mark_kind(*kind);
    }
    Ok(literals)
}

/// A list of these texts.
fn list_of(alloc: Global, members: &[&str]) -> Result<TextList, AllocError> {
    let mut texts = TextList::new(alloc);
    for characters in members {
        texts.push(text(alloc, characters)?)?;
    }
    Ok(texts)
}

/// Whether the atoms are these texts.
fn are(atoms: &Atoms, wanted: &[&str]) -> bool {
    atoms.len() == wanted.len()
        && wanted
            .iter()
            .enumerate()
            .all(|(place, text)| atoms.find(text) == Some(place))
}

/// Whether the literals and the extra texts have these atoms, in so many groups of alike ones.
fn have_atoms(
    alloc: Global,
    members: &[(Kind, &str)],
    extra: &[&str],
    wanted: &[&str],
    groups: usize,
) -> Result<bool, AllocError> {
    let literals = literals_of(alloc, members)?;
    let texts = list_of(alloc, extra)?;
    let atoms = Atoms::of(alloc, &literals, &texts)?;
    Ok(are(&atoms, wanted) && alike_atoms(alloc, &literals, &atoms)?.count() == groups)
}

#[test]
fn atoms_of_literals(rt: HostRuntime) -> Result<(), AllocError> {
    let none: &[(Kind, &str)] = &[];
    let two: &[(Kind, &str)] = &[(Kind::Token, "b"), (Kind::Str, "b")];
    let string: &[(Kind, &str)] = &[(Kind::Str, " t\t")];
    let token: &[(Kind, &str)] = &[(Kind::Token, "t")];
    let integer: &[(Kind, &str)] = &[(Kind::Integer, " 7 ")];
    let no_text: &[&str] = &[];
    let rows = [
        (none, no_text, ["t"].as_slice(), 1),
        (two, no_text, ["b", "b ", "t"].as_slice(), 3),
        (string, no_text, [" t\t", "t1"].as_slice(), 2),
        (token, ["u"].as_slice(), ["t", "t1", "u"].as_slice(), 2),
        (integer, no_text, ["-1", "0", "1", "7", "t"].as_slice(), 3),
    ];
    for (members, extra, wanted, groups) in rows {
        assert!(rt; have_atoms(rt.alloc(), members, extra, wanted, groups)?);
    }
    Ok(())
}
