//! Schemas made for numbers: one for each, with 24 items whose contents follow from the number.
#![tactic(auto)]

ghost use Rattle.std.specs.Prelude.{◌≡◌, ◌<◌, ◌*◌, ◌++◌, codes, IfOk, OnOk};
ghost use Rattle.std.specs.List.{join_by};
ghost use Rattle.seeded_schema.specs.Made.{content, content_number, item_line, item_name, items, made, start_line};

use std::alloc::{AllocError as OutOfMemory, Global};

mod laws;

pub use laws::contents_of_the_first_items;

/// How many items a schema has.
const ITEMS: u8 = 24;

/// The text of the schema for the number, in the compact syntax: a root with the items `ea` to `ex` in their order, and then a line for
/// each item. The contents follow from the number alone.
pub fn make(alloc: Global, number: u32) -> Result<Vec<u8>, OutOfMemory>
    ensures made { IfOk result (λ v. v.items ≡ made number) }
{
    let mut text = Vec::new(alloc);
    push_start(&mut text)?;
    for item in 0..ITEMS {
        push_item(&mut text, number, item)?;
    }
    Ok(text)
}

/// Appends the first line.
#[tactic(auto, unfolding(crate::specs::Made::start_line))]
fn push_start(text: &mut Vec<u8>) -> Result<(), OutOfMemory>
    ensures { OnOk result (text.new.items ≡ text.old.items ++ start_line) }
{
    text.extend_from_slice(b"start = element r { ")?;
    push_names(text)?;
    text.extend_from_slice(b" }\n")
}

/// Appends the names of all items, with a comma and a space between each two.
fn push_names(text: &mut Vec<u8>) -> Result<(), OutOfMemory>
    ensures { OnOk result (text.new.items ≡ text.old.items ++ join_by item_name (codes ", ") items) }
{
    push_name(text, 0)?;
    for item in 1..ITEMS {
        text.extend_from_slice(b", ")?;
        push_name(text, item)?;
    }
    Ok(())
}

/// Appends the name of an item.
#[tactic(auto, unfolding(crate::specs::Made::item_name))]
fn push_name(text: &mut Vec<u8>, item: u8) -> Result<(), OutOfMemory>
    requires { item < 24 }
    ensures { OnOk result (text.new.items ≡ text.old.items ++ item_name item) }
{
    text.extend_from_slice(&[b'e', b'a' + item])
}

/// Appends the line of an item.
fn push_item(text: &mut Vec<u8>, number: u32, item: u8) -> Result<(), OutOfMemory>
    requires { item < 24 }
    ensures { OnOk result (text.new.items ≡ text.old.items ++ item_line number item) }
{
    push_name(text, item)?;
    text.extend_from_slice(b" = element ")?;
    push_name(text, item)?;
    text.extend_from_slice(b" ")?;
    text.extend_from_slice(content_of(number, item))?;
    text.extend_from_slice(b"\n")?;
    Ok(())
}

/// The content of an item, with its braces.
#[tactic(auto, unfolding(crate::specs::Made::content))]
fn content_of(number: u32, item: u8) -> &'static [u8]
    requires { item < 24 }
    ensures { result.now ≡ content (content_number number item) }
{
    let place = u64::from(item);
    let kind = (u64::from(number) * (place + 1) + place * place) % 8;
    if kind == 0 {
        return b"{ empty }?";
    }
    if kind == 1 {
        return b"{ \"v\" | \"w\" }";
    }
    if kind <= 4 {
        return b"{ empty }";
    }
    b"{ \"v\" }"
}
