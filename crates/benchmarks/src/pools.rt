// Benchmarks of the pool of patterns.
ghost use Rattle.std.specs.Prelude.{◌<◌, IfOk};
ghost use Rattle.pattern_intern.specs.Stored.{Extends, count};

use name_classes::{Name, NameClass};
use pattern_intern::{PatternId, Pool};
use std::alloc::{AllocError, Global};
use std::io;
use std::time::Instant;
use text_atoms::{Kind, Text};

/// The calls of constructors of patterns.
const CALLS: usize = 200_000;

/// The literals of a choice.
const LITERALS: u32 = 20_000;

/// The attributes that are joined to a group.
const ATTRIBUTES: u32 = 1_000;

/// The names in the choice of an attribute's name class.
const NAMES: u32 = 300_000;

/// A call of one of the pool's constructors of patterns, by its number.
fn call(
    alloc: Global,
    pool: &mut Pool,
    number: usize,
    last: PatternId,
) -> Result<PatternId, AllocError>
    requires { last.0 < count pool.old }
    ensures { IfOk result (λ id. id.0 < count pool.new) }
{
    let text = pool.any_text();
    match number % 8 {
        0 => pool.reference(number),
        1 => pool.value(Kind::Token, format!(in alloc; "{number}")?.as_str()),
        2 => {
            let class = NameClass::any(alloc)?;
            pool.attribute(&class, last)
        }
        3 => pool.one_or_more(last),
        4 => pool.choice(last, text),
        5 => pool.group(last, last),
        6 => pool.interleave(last, text),
        _ => pool.after(last, text),
    }
}

/// Calls of the constructors of mixed kinds.
fn mixed(alloc: Global, pool: &mut Pool) -> Result<(), AllocError> {
    let mut last = pool.any_text();
    for number in 0..CALLS {
        last = call(alloc, pool, number, last)?;
    }
    Ok(())
}

/// The pattern of a literal of ten digits.
fn literal(alloc: Global, pool: &mut Pool, number: u32) -> Result<PatternId, AllocError>
    ensures within { IfOk result (λ id. id.0 < count pool.new) }
    ensures kept { Extends pool.old pool.new }
{
    let text = format!(in alloc; "{number:010}")?;
    pool.value(Kind::Token, text.as_str())
}

/// A choice of literals, made from the greatest down.
fn choice(alloc: Global, pool: &mut Pool) -> Result<(), AllocError> {
    let mut others = pool.not_allowed();
    for number in 0..LITERALS {
        let member = literal(alloc, pool, LITERALS - number)?;
        others = pool.choice(member, others)?;
    }
    Ok(())
}

/// A choice of literals, made at once.
fn choice_of_all(alloc: Global, pool: &mut Pool) -> Result<(), AllocError> {
    let mut members = Vec::new(alloc);
    for number in 0..LITERALS {
        members.push(literal(alloc, pool, number * 7 % LITERALS)?)?;
    }
    pool.choice_of_all(members.as_slice())?;
    Ok(())
}

/// The class of a name without a namespace, by its number.
fn numbered_class(alloc: Global, number: u32) -> Result<Option<NameClass>, AllocError> {
    let local = format!(in alloc; "a{number}")?;
    let name = Name::new(
        Text::from_string(String::new(alloc)),
        Text::from_string(local),
    );
    match name {
        Ok(name) => Ok(Some(NameClass::one(alloc, name)?)),
        Err(_) => Ok(None),
    }
}

/// A group with the attribute of a number behind it.
fn joined(
    alloc: Global,
    pool: &mut Pool,
    number: u32,
    others: PatternId,
) -> Result<PatternId, AllocError>
    requires { others.0 < count pool.old }
    ensures { IfOk result (λ id. id.0 < count pool.new) }
{
    match numbered_class(alloc, number)? {
        Some(class) => {
            let text = pool.any_text();
            let attribute = pool.attribute(&class, text)?;
            pool.group(others, attribute)
        }
        None => Ok(others),
    }
}

/// A group of attributes, joined from the left.
fn group(alloc: Global, pool: &mut Pool) -> Result<(), AllocError> {
    let mut others = pool.empty();
    for number in 0..ATTRIBUTES {
        others = joined(alloc, pool, number, others)?;
    }
    Ok(())
}

/// The classes of many names.
fn classes(alloc: Global) -> Result<Vec<NameClass>, AllocError> {
    let mut classes = Vec::new(alloc);
    for number in 0..NAMES {
        if let Some(class) = numbered_class(alloc, number)? {
            classes.push(class)?;
        }
    }
    Ok(classes)
}

/// An attribute whose name class is a choice of many names, made twice.
fn names(alloc: Global, pool: &mut Pool) -> Result<(), AllocError> {
    if let Some(class) = NameClass::choice_of(alloc, classes(alloc)?)? {
        let text = pool.any_text();
        pool.attribute(&class, text)?;
        pool.attribute(&class, text)?;
    }
    Ok(())
}

/// Makes the patterns of a benchmark. False where it isn't one.
fn make(alloc: Global, pool: &mut Pool, name: &str) -> Result<bool, AllocError> {
    match name {
        "pool-mixed" => mixed(alloc, pool)?,
        "pool-choice" => choice(alloc, pool)?,
        "pool-choice-of-all" => choice_of_all(alloc, pool)?,
        "pool-group" => group(alloc, pool)?,
        "pool-names" => names(alloc, pool)?,
        _ => return Ok(false),
    }
    Ok(true)
}

/// Times a benchmark of the pool of patterns, and says how many nodes it made. False where it isn't one.
pub(crate) fn time_pool(rt: &HostRuntime, name: &str) -> io::Result<bool> {
    let mut pool = Pool::new(rt.alloc())?;
    let start = Instant::now(rt)?;
    let is_made = make(rt.alloc(), &mut pool, name)?;
    let micros = start.elapsed(rt)?.as_micros();
    if is_made {
        println!(rt; "{name}: {} nodes in {micros} microseconds", pool.len())?;
    }
    Ok(is_made)
}
