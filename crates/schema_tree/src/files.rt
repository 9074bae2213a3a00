// The files of a schema.
ghost use Rattle.std.specs.Prelude.{◌≡◌, ◌<◌, ◌+◌, ◌^◌, ◌==◌, suc, [], ◌∷◌, ◌++◌, length, map, slice_get, Some, OnOk, OnErr};
ghost use Rattle.schema_tree.specs.Files.{places_of, number_at, base_of, AtFile, AreWithin, AreFilesWithin, AreFitting, file_of};
ghost use Rattle.schema_tree.specs.Trees.{declaration_of};

use crate::tree::Declaration;
use sqlite_items::Items;
use std::alloc::{AllocError, Global};
use std::marker::Model;
use text_atoms::Text;

/// A file, and where its places begin.
#[derive(Drop)]
pub(crate) struct Entry {
    pub(crate) name: Text,
    pub(crate) length: usize,
    pub(crate) base: usize,
    pub(crate) inherited: Text,
    pub(crate) declarations: Items<Declaration>,
}

/// The files of a schema, each as often as it is named, in the order in which they are read.
#[derive(Drop)]
pub struct FileList {
    entries: Vec<Entry>,
    places: usize,
}

impl Model for FileList {
    ghost use Rattle.std.specs.Prelude.{List, map};
    ghost use Rattle.grammar_laws.specs.Files.{SchemaFile};
    ghost use Rattle.std.specs.Prelude.{◌<◌, ◌^◌};
    ghost use Rattle.schema_tree.specs.Files.{file_of, AreBased};

    ghost Value = { List SchemaFile };

    ghost view = { λ l. map file_of l.entries.items };

    ghost invariant = { λ l. (l.places < 2 ^ 64) × AreBased 0 l.places l.entries.items };
}

impl FileList {
    /// No file.
    pub fn new(alloc: Global) -> FileList
        ensures { result ≡ [] }
    {
        FileList {
            entries: Vec::new(alloc),
            places: 0,
        }
    }

    /// Adds a file of so many bytes. Where memory is wanting, the list stays as before, and what it took is dropped.
    pub fn push(
        &mut self,
        name: Text,
        length: usize,
        inherited: Text,
        declarations: Items<Declaration>,
    ) -> Result<(), AllocError>
        requires fits { places_of self.old + suc length < 2 ^ 64 }
        requires places { AreWithin length (map declaration_of declarations) }
        ensures ok { OnOk result (self.new ≡ self.old ++ record { name = name; length = length; inherited = inherited; declarations = map declaration_of declarations } ∷ []) }
        ensures err { OnErr result (self.new ≡ self.old) }
    {
        let base = self.places;
        self.entries.push(Entry {
            name,
            length,
            base,
            inherited,
            declarations,
        })?;
        self.places = base + length + 1;
        Ok(())
    }

    /// How many files it has.
    pub fn len(&self) -> usize
        ensures { result ≡ length self.now }
    {
        self.entries.len()
    }

    /// Whether it has none.
    pub fn is_empty(&self) -> bool
        ensures { result ≡ (length self.now == 0) }
    {
        self.entries.is_empty()
    }

    /// The number of the file in which a place stands.
    pub(crate) fn number_at(&self, place: usize) -> usize
        requires { place < places_of self.now }
        ensures { result ≡ number_at self.now place }
    {
        number_in(self.entries.as_slice(), place)
    }

    /// The file with the number.
    fn entry(&self, file: usize) -> &Entry
        requires { file < length self.now }
        ensures file { slice_get self.now file ≡ Some (file_of result.now) }
        ensures base { result.now.base ≡ base_of self.now file }
    {
        &self.entries[file]
    }

    /// What holds of all files: their places are numbers, and those of a file's declarations are in it.
    pub(crate) fn holds(&self)
        ensures places { places_of self.now < 2 ^ 64 }
        ensures within { AreFilesWithin self.now }
    {
        let _entries = self.entries();
    }

    pub(crate) fn name(&self, file: usize) -> &Text
        requires { file < length self.now }
        ensures { AtFile self.now file (λ f. f.name ≡ result.now) }
    {
        &self.entry(file).name
    }

    pub(crate) fn length(&self, file: usize) -> usize
        requires { file < length self.now }
        ensures { AtFile self.now file (λ f. f.length ≡ result) }
    {
        self.entry(file).length
    }

    pub(crate) fn base(&self, file: usize) -> usize
        requires { file < length self.now }
        ensures { result ≡ base_of self.now file }
    {
        self.entry(file).base
    }

    pub(crate) fn inherited(&self, file: usize) -> &Text
        requires { file < length self.now }
        ensures { AtFile self.now file (λ f. f.inherited ≡ result.now) }
    {
        &self.entry(file).inherited
    }

    pub(crate) fn declarations(&self, file: usize) -> &Items<Declaration>
        requires { file < length self.now }
        ensures { AtFile self.now file (λ f. f.declarations ≡ map declaration_of result.now) }
    {
        &self.entry(file).declarations
    }

    /// The files in their order.
    pub(crate) fn entries(&self) -> &[Entry]
        ensures files { map file_of result.now ≡ self.now }
        ensures based { AreFitting result.now }
    {
        self.entries.as_slice()
    }

    /// The declarations of the last file.
    pub(crate) fn into_declarations(self) -> Items<Declaration>
        requires { length self ≡ 1 }
        ensures { AtFile self 0 (λ f. f.declarations ≡ map declaration_of result) }
    {
        let FileList { mut entries, .. } = self;
        match entries.pop() {
            Some(entry) => entry.declarations,
            None => unreachable!(),
        }
    }
}

/// The number of the file in which a place stands, or how many files there are where it stands behind them.
fn number_in(entries: &[Entry], place: usize) -> usize
    ensures { result ≡ number_at (map file_of entries.now) place }
{
    let mut left = place;
    let mut number = 0;
    let mut rest = entries;
    while let Some((first, others)) = rest.split_first() {
        if left <= first.length {
            return number;
        }
        left -= first.length + 1;
        number += 1;
        rest = others;
    }
    number
}
