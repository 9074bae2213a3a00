// Benchmarks of the atoms of literals, and of their groups.

use std::alloc::{AllocError, Global};
use std::io;
use std::time::Instant;
use text_atoms::{Atoms, Kind, Literals, Text, TextList, alike_atoms};

/// The literals whose atoms are made and grouped, of 50 bytes each.
const LITERALS: u32 = 20_000;

/// Literals of 50 digits, in turn strings and tokens.
fn literals(alloc: Global) -> Result<Literals, AllocError> {
    let mut literals = Literals::new(alloc);
    for number in 0..LITERALS {
        let kind = if number % 2 == 0 {
            Kind::Str
        } else {
            Kind::Token
        };
        let text = format!(in alloc; "{number:050}")?;
        literals.push(kind, Text::from_string(text))?;
    }
    Ok(literals)
}

/// Times the making of atoms, and says how many they are.
fn time_making(rt: &HostRuntime, literals: &Literals) -> io::Result<()> {
    let start = Instant::now(rt)?;
    let atoms = Atoms::of(rt.alloc(), literals, &TextList::new(rt.alloc()))?;
    let micros = start.elapsed(rt)?.as_micros();
    println!(rt; "atoms: {} in {micros} microseconds", atoms.len())?;
    Ok(())
}

/// Times the grouping of atoms, and says how many groups they are.
fn time_grouping(rt: &HostRuntime, literals: &Literals) -> io::Result<()> {
    let atoms = Atoms::of(rt.alloc(), literals, &TextList::new(rt.alloc()))?;
    let start = Instant::now(rt)?;
    let groups = alike_atoms(rt.alloc(), literals, &atoms)?;
    let micros = start.elapsed(rt)?.as_micros();
    println!(rt; "alike: {} groups in {micros} microseconds", groups.count())?;
    Ok(())
}

/// Times a benchmark of atoms. False where it isn't one.
pub(crate) fn time_atoms(rt: &HostRuntime, name: &str) -> io::Result<bool> {
    match name {
        "atoms" => time_making(rt, &literals(rt.alloc())?)?,
        "alike" => time_grouping(rt, &literals(rt.alloc())?)?,
        _ => return Ok(false),
    }
    Ok(true)
}
