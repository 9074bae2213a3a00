// Small lists.
ghost use Rattle.std.specs.Prelude.{min, take, ◌≡◌, ◌<◌, ◌++◌, ◌∷◌, [], ℕ, List, length, slice_get, OnOk, OnErr, Some};

use std::alloc::{AllocError as OutOfMemory, Global};
use std::marker::Model;

/// Files by name. Of two with one name the first counts.
#[derive(Drop)]
pub struct Files {
    items: Vec<(String, Vec<u8>)>,
}

impl Model for Files {
    ghost use Rattle.std.specs.Prelude.{map, string_bytes};
    ghost use Rattle.outside.specs.Devices.{Shelved};

    ghost Value = { Shelved };

    ghost view = { λ f. map (λ file. (string_bytes file.0, file.1.items)) f.items.items };
}

impl Files {
    ghost use Rattle.std.specs.Prelude.{string_bytes, IfSome, IfNone, None, slice_index_or};
    ghost use Rattle.outside.specs.Devices.{bytes_of};

    /// No files.
    pub fn new(alloc: Global) -> Self
        ensures { result ≡ [] }
    {
        Files {
            items: Vec::new(alloc),
        }
    }

    /// How many files there are.
    pub fn len(&self) -> usize
        ensures { result ≡ length self.now }
    {
        self.items.len()
    }

    /// The name and the bytes of the file at a position.
    pub fn get(&self, position: usize) -> (&str, &[u8])
        requires { position < length self.now }
        ensures { slice_get self.now position ≡ Some (result.0.now, result.1.now) }
    {
        let file = &self.items[position];
        (file.0.as_str(), file.1.as_slice())
    }

    /// The place of the first file of the name.
    pub(crate) fn find(&self, name: &str) -> Option<usize>
        ensures found { IfSome result (λ place. place < length self.now) }
        ensures value { IfSome result (λ place. bytes_of self.now name.now ≡ Some (slice_index_or self.now place ([], [])).1) }
        ensures none { IfNone result (bytes_of self.now name.now ≡ None) }
    {
        for place in 0..self.items.len() {
            if self.items[place].0.as_str() == name {
                return Some(place);
            }
        }
        None
    }

    /// The bytes of the file at a place.
    pub(crate) fn bytes(&self, place: usize) -> &[u8]
        requires { place < length self.now }
        ensures { result.now ≡ (slice_index_or self.now place ([], [])).1 }
    {
        &self.items[place].1
    }

    /// Adds a file at the end.
    pub fn push(&mut self, name: String, bytes: Vec<u8>) -> Result<(), OutOfMemory>
        ensures ok { OnOk result (self.new ≡ self.old ++ (string_bytes name, bytes.items) ∷ []) }
        ensures err { OnErr result (self.new ≡ self.old) }
    {
        self.items.push((name, bytes))?;
        Ok(())
    }
}

/// Numbers of calls.
#[derive(Drop)]
pub struct Calls {
    items: Vec<u64>,
}

impl Model for Calls {
    ghost use Rattle.std.specs.Prelude.{List, ℕ};

    ghost Value = { List ℕ };

    ghost view = { λ c. c.items.items };
}

impl Calls {
    ghost use Rattle.std.specs.Prelude.{◌==◌};
    ghost use Rattle.std.specs.List.{list_any};

    /// No calls.
    pub fn new(alloc: Global) -> Self
        ensures { result ≡ [] }
    {
        Calls {
            items: Vec::new(alloc),
        }
    }

    /// How many there are.
    pub fn len(&self) -> usize
        ensures { result ≡ length self.now }
    {
        self.items.len()
    }

    /// The one at a position.
    pub fn get(&self, position: usize) -> u64
        requires { position < length self.now }
        ensures { slice_get self.now position ≡ Some result }
    {
        self.items[position]
    }

    /// Adds one at the end.
    pub fn push(&mut self, call: u64) -> Result<(), OutOfMemory>
        ensures ok { OnOk result (self.new ≡ self.old ++ call ∷ []) }
        ensures err { OnErr result (self.new ≡ self.old) }
    {
        self.items.push(call)?;
        Ok(())
    }

    /// Whether the number is among them.
    pub(crate) fn contains(&self, call: u64) -> bool
        ensures { result ≡ list_any (λ n. n == call) self.now }
    {
        self.items.iter().any(|number| *number == call)
    }
}

/// Copies the first bytes over, as many as there are, fit and are allowed.
pub(crate) fn copy_front(buf: &mut [u8], from: &[u8], most: usize) -> usize
    ensures count { result ≡ min (min (length from.now) (length buf.old)) most }
    ensures front { take result buf.new ≡ take result from.now }
{
    let count = from.len().min(buf.len()).min(most);
    buf[..count].copy_from_slice(&from[..count]);
    count
}
