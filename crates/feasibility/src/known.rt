// The patterns that are known after the attributes of alike names.
ghost use Rattle.std.specs.Prelude.{◌≡◌, ◌<◌, [], Some, IfOk, length, map, replicate, slice_get, slice_set};

use pattern_intern::PatternId;
use std::alloc::{AllocError, Global};
use std::marker::Model;
use std::mem;

/// For each group of alike names the patterns that are known, by groups of texts.
#[derive(Drop)]
pub(crate) struct Known {
    lists: Vec<Vec<Option<PatternId>>>,
}

impl Model for Known {
    ghost use Rattle.std.specs.Prelude.{List, Option, map};
    ghost use Rattle.pattern_intern.specs.declared.id.PatternId.{PatternId as PatternNumber};

    ghost Value = { List (List (Option PatternNumber)) };

    ghost view = { λ k. map (λ list. list.items) k.lists.items };
}

// So many empty lists.
fn empty_lists(alloc: Global, count: usize) -> Result<Vec<Vec<Option<PatternId>>>, AllocError>
    ensures { IfOk result (λ lists. map (λ list. list.items) lists.items ≡ replicate count []) }
{
    let mut lists = Vec::with_capacity(alloc, count)?;
    for _ in 0..count {
        lists.push(Vec::new(alloc))?;
    }
    Ok(lists)
}

impl Known {
    /// Nothing is known of so many groups.
    pub(crate) fn new(alloc: Global, count: usize) -> Result<Known, AllocError>
        ensures { IfOk result (λ known. known ≡ replicate count []) }
    {
        let lists = empty_lists(alloc, count)?;
        Ok(Known { lists })
    }

    /// The list of a group, which is empty from then on.
    pub(crate) fn take(&mut self, alloc: Global, group: usize) -> Vec<Option<PatternId>>
        requires { group < length self.old }
        ensures list { slice_get self.old group ≡ Some result.items }
        ensures left { self.new ≡ slice_set self.old group [] }
    {
        mem::replace(&mut self.lists[group], Vec::new(alloc))
    }

    /// Puts a list in the place of that of a group.
    pub(crate) fn put(&mut self, group: usize, list: Vec<Option<PatternId>>)
        requires { group < length self.old }
        ensures { self.new ≡ slice_set self.old group list.items }
    {
        self.lists[group] = list;
    }
}
