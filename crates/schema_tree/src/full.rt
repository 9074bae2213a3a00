// The tree of a whole schema. Contracts see the files and the body; `full_of` makes the tree of the definitions of them.
ghost use Rattle.std.specs.Prelude.{◌≡◌, ◌≢◌, ◌<◌, ◌^◌, [], length, map};
ghost use Rattle.schema_tree.specs.Files.{places_of, last_place, number_at, base_of, AtFile, AreFilesWithin};
ghost use Rattle.schema_tree.specs.Sound.{IsSoundBody};
ghost use Rattle.schema_tree.specs.Trees.{declaration_of, body_of};

use crate::files::FileList;
use crate::tree::{Body, Declaration};
use sqlite_items::Items;
use std::marker::Model;
use text_atoms::Text;

/// The declarations and the body of one file.
#[derive(Drop)]
pub struct Parts {
    pub declarations: Items<Declaration>,
    pub body: Body,
}

/// The tree of a schema: its files, with their declarations, and one body. A place in the body is counted through all files,
/// in their order, each with one place more than it has bytes; a declaration's is counted in its file.
#[derive(Drop)]
pub struct Full {
    files: FileList,
    body: Body,
}

impl Model for Full {
    ghost use Rattle.std.specs.Prelude.{◌≢◌, []};
    ghost use Rattle.schema_tree.specs.Files.{Whole};
    ghost use Rattle.schema_tree.specs.contracts.tree.Body as e;
    ghost use Rattle.std.specs.Coded.{codes};

    ghost Value = { Whole };

    ghost coded = { Prim.hlevel (codes, e.the_row.coded) };

    ghost view = { λ f. record { files = f.files; body = f.body } };

    ghost use Rattle.schema_tree.specs.Files.{last_place};
    ghost use Rattle.schema_tree.specs.Sound.{IsSoundBody};
    ghost use Rattle.schema_tree.specs.Trees.{body_of};

    ghost invariant = { λ f. (f.files ≢ []) × IsSoundBody (last_place f.files) (body_of f.body) };
}

impl Full {
    /// The tree of these files, one or more, with the body. Its places are those of the files, its local names are NCNames, and
    /// each list of a group, a choice or an interleave has two members or more.
    pub fn of_files(files: FileList, body: Body) -> Full
        requires some { files ≢ [] }
        requires sound { IsSoundBody (last_place files) (body_of body) }
        ensures { result ≡ record { files = files; body = body } }
    {
        Full { files, body }
    }

    pub(crate) fn files(&self) -> &FileList
        ensures { result.now ≡ self.now.files }
    {
        &self.files
    }

    /// How many files it has, one or more.
    pub fn file_count(&self) -> usize
        ensures count { result ≡ length self.now.files }
        ensures some { 0 < result }
    {
        self.files.len()
    }

    /// The number of the file in which a place of the body stands.
    pub fn file_of(&self, place: usize) -> usize
        requires { place < places_of self.now.files }
        ensures number { result ≡ number_at self.now.files place }
        ensures within { result < length self.now.files }
    {
        self.files.number_at(place)
    }

    /// The name of the file with the number, counted from 0; the empty text where it has none.
    pub fn file_name(&self, file: usize) -> &Text
        requires { file < length self.now.files }
        ensures { AtFile self.now.files file (λ f. f.name ≡ result.now) }
    {
        self.files.name(file)
    }

    /// How many bytes the file with the number has.
    pub fn file_length(&self, file: usize) -> usize
        requires { file < length self.now.files }
        ensures { AtFile self.now.files file (λ f. f.length ≡ result) }
    {
        self.files.length(file)
    }

    /// What holds of the files of every tree: their places are numbers, and those of a file's declarations are in it.
    pub fn holds(&self)
        ensures places { places_of self.now.files < 2 ^ 64 }
        ensures within { AreFilesWithin self.now.files }
    {
        self.files.holds();
    }

    /// Where the places of the file with the number begin.
    pub fn file_base(&self, file: usize) -> usize
        requires { file < length self.now.files }
        ensures { result ≡ base_of self.now.files file }
    {
        self.files.base(file)
    }

    /// The namespace that the file with the number inherits from the one that refers to it.
    pub fn file_inherited(&self, file: usize) -> &Text
        requires { file < length self.now.files }
        ensures { AtFile self.now.files file (λ f. f.inherited ≡ result.now) }
    {
        self.files.inherited(file)
    }

    /// The declarations of the file with the number.
    pub fn declarations(&self, file: usize) -> &Items<Declaration>
        requires { file < length self.now.files }
        ensures { AtFile self.now.files file (λ f. f.declarations ≡ map declaration_of result.now) }
    {
        self.files.declarations(file)
    }

    /// What it consists of besides the declarations.
    pub fn body(&self) -> &Body
        ensures body { result.now ≡ self.now.body }
        ensures sound { IsSoundBody (last_place self.now.files) (body_of result.now) }
    {
        &self.body
    }

    /// The declarations and the body of a schema of one file.
    pub fn into_parts(self) -> Parts
        requires { length self.files ≡ 1 }
        ensures declarations { AtFile self.files 0 (λ f. f.declarations ≡ map declaration_of result.declarations) }
        ensures body { result.body ≡ self.body }
        ensures sound { IsSoundBody (last_place self.files) (body_of result.body) }
    {
        let Full { files, body } = self;
        Parts {
            declarations: files.into_declarations(),
            body,
        }
    }
}
