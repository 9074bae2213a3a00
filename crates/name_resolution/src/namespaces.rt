// The declarations of all files.
ghost use Rattle.std.specs.Prelude.{◌≡◌, ◌<◌, ◌≤◌, ◌+◌, ◌^◌, ◌∷◌, ◌++◌, [], suc, take, All, MatchOption, IfOk, OnOk, OnErr, map, option_map};
ghost use Rattle.grammar_laws.specs.Files.{SchemaFile};
ghost use Rattle.schema_tree.specs.Files.{AreFilesWithin};
ghost use Rattle.schema_tree.specs.Trees.{declaration_of, type_of};
ghost use Rattle.simple_form_laws.specs.Faults.{declaration_place};
ghost use Rattle.simple_form_laws.specs.Prefixes.{default_of, file_at, kind_of, library_table, look_up, namespace_of, no_file};
ghost use Rattle.text_atoms.specs.Kinds.{kind_of as kind_value};
ghost use Rattle.name_resolution.specs.Places.{places_of, IsNextFile};

use crate::file::{FileNames, XML_URI};
use crate::kinds::{XSD_URI, library_kind};
use schema_tree::{Declaration, Full, TypeName};
use std::alloc::{AllocError, Global};
use std::marker::Model;
use text_atoms::{Kind, Text};

/// The files of a schema with what their declarations bind. A place is counted through all files, each with one place more than it has
/// bytes. A prefix is looked up in the tables of the file in which it stands.
#[derive(Drop)]
pub struct Namespaces<'a> {
    files: Vec<FileNames<'a>>,
}

impl<'a> Model for Namespaces<'a> {
    ghost use Rattle.std.specs.Prelude.{List, ◌<◌, ◌^◌};
    ghost use Rattle.grammar_laws.specs.Files.{SchemaFile};
    ghost use Rattle.name_resolution.specs.Places.{places_of};

    ghost Value = { List SchemaFile };

    ghost view = { λ n. n.files.items };

    ghost invariant = { λ n. places_of n.files.items < 2 ^ 64 };
}

impl<'a> Namespaces<'a> {
    /// No file.
    pub fn new(alloc: Global) -> Namespaces<'a>
        ensures { result ≡ [] }
    {
        Namespaces {
            files: Vec::new(alloc),
        }
    }

    /// Adds a file of so many bytes with its declarations, whose places are counted in it. After want of memory the files are as before.
    pub fn push(
        &mut self,
        alloc: Global,
        name: &'a Text,
        length: usize,
        inherited: &'a Text,
        declarations: &'a [Declaration],
    ) -> Result<(), AllocError>
        requires places { places_of self.old + suc length < 2 ^ 64 }
        requires within { All (λ d. declaration_place d ≤ length) (map declaration_of declarations.now) }
        ensures ok { OnOk result (self.new ≡ self.old ++ record { name = name.now; length = length; inherited = inherited.now; declarations = map declaration_of declarations.now } ∷ []) }
        ensures err { OnErr result (self.new ≡ self.old) }
    {
        let file = FileNames::new(alloc, name, length, inherited, declarations)?;
        self.files.push(file)?;
        Ok(())
    }

    /// The files of a schema's tree.
    pub fn of(alloc: Global, full: &'a Full) -> Result<Namespaces<'a>, AllocError>
        ensures { IfOk result (λ names. names ≡ full.now.files) }
    {
        full.holds();
        let mut names = Namespaces::new(alloc);
        for file in 0..full.file_count() {
            names.push_file(alloc, full, file)?;
        }
        Ok(names)
    }

    // Adds the file of the number.
    fn push_file(&mut self, alloc: Global, full: &'a Full, file: usize) -> Result<(), AllocError>
        requires next { IsNextFile self.old full.now.files file }
        requires places { places_of full.now.files < 2 ^ 64 }
        requires within { AreFilesWithin full.now.files }
        ensures { OnOk result (self.new ≡ take (suc file) full.now.files) }
    {
        let name = full.file_name(file);
        let length = full.file_length(file);
        let inherited = full.file_inherited(file);
        let declarations = full.declarations(file);
        self.push(alloc, name, length, inherited, declarations.as_slice())
    }

    /// All files.
    pub(crate) fn files(&self) -> &[FileNames<'a>]
        ensures files { result.now ≡ self.now }
        ensures places { places_of self.now < 2 ^ 64 }
    {
        self.files.as_slice()
    }

    // The file in which a place stands, if one does.
    fn file_at(&self, at: usize) -> Option<&FileNames<'a>>
        ensures { MatchOption result (file_at self.now at ≡ no_file) (λ f. f.now ≡ file_at self.now at) }
    {
        let mut left = at;
        for file in self.files() {
            let length = file.length();
            if left <= length {
                return Some(file);
            }
            left = left - length - 1;
        }
        None
    }

    /// The namespace of a prefix that stands at the place; none where the prefix isn't bound.
    pub fn namespace(&self, prefix: &str, at: usize) -> Option<&'a str>
        ensures { option_map (λ u. u.now) result ≡ namespace_of self.now prefix.now at }
    {
        match self.file_at(at) {
            Some(file) => file.namespace(prefix),
            None if prefix == "xml" => Some(XML_URI),
            None => None,
        }
    }

    /// The default namespace at the place: that of an element's name without a prefix.
    pub fn default_namespace(&self, at: usize) -> &'a str
        ensures { result.now ≡ default_of (file_at self.now at) }
    {
        match self.file_at(at) {
            Some(file) => file.default_namespace(),
            None => "",
        }
    }

    /// The datatype library of a prefix that stands at the place; none where the prefix isn't bound.
    pub fn library(&self, prefix: &str, at: usize) -> Option<&'a str>
        ensures { option_map (λ u. u.now) result ≡ look_up (library_table (file_at self.now at)) prefix.now }
    {
        match self.file_at(at) {
            Some(file) => file.library(prefix),
            None if prefix == "xsd" => Some(XSD_URI),
            None => None,
        }
    }

    /// The kind that a type names; none where its prefix isn't bound, or to a library that isn't taken, or where the library hasn't the type.
    pub fn kind(&self, of: &TypeName) -> Option<Kind>
        ensures { option_map kind_value result ≡ kind_of self.now (type_of of.now) }
    {
        match of {
            TypeName::BuiltString { .. } => Some(Kind::Str),
            TypeName::BuiltToken { .. } => Some(Kind::Token),
            TypeName::Prefixed { prefix, local, at } => {
                match self.library(prefix.as_str(), *at) {
                    Some(library) => library_kind(library, local.as_str()),
                    None => None,
                }
            }
        }
    }
}
