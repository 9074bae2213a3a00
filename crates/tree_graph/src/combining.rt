// The combining of starts and definitions (RELAX NG Specification, section Simplification: combine attribute).
ghost use Rattle.std.specs.Prelude.{◌≡◌, ◌+◌, ◌<◌, ◌∷◌, ◌++◌, ◌||◌, [], suc, if◌then◌else◌, length, IfOk, OnOk};
ghost use Rattle.schema_graph.specs.declared.node.Node.{Node as NodeValue};
ghost use Rattle.tree_graph.specs.Combined.{AreDefined, AreEntries, AreGroups, AreOf};

use crate::entry::Entry;
use crate::parts::Parts;
use crate::table::Table;
use schema_graph::{Members, Node};
use std::alloc::{AllocError, Global};

// What is gathered of one definition: whether one of its entries has `&=`, and the nodes of all.
#[derive(Drop)]
struct Group {
    interleaves: bool,
    members: Members,
}

impl Group {
    // One entry more.
    fn add(&mut self, entry: &Entry) -> Result<(), AllocError>
        ensures { OnOk result (self.new ≡ record { interleaves = self.old.interleaves || entry.now.interleaves; members = self.old.members ++ entry.now.node ∷ [] }) }
    {
        self.interleaves = self.interleaves || entry.interleaves;
        self.members.push(entry.node)
    }

    // The node of the definition.
    fn into_node(self) -> Node
        ensures { result ≡ (if self.interleaves then NodeValue.Interleave self.members else NodeValue.Choice self.members) }
    {
        if self.interleaves {
            Node::Interleave(self.members)
        } else {
            Node::Choice(self.members)
        }
    }
}

// So many definitions, of which nothing is gathered yet.
fn no_groups(alloc: Global, first: usize, count: usize) -> Result<Vec<Group>, AllocError>
    ensures counted { IfOk result (λ r. length r.items ≡ count) }
    ensures groups { IfOk result (λ r. AreGroups first [] r.items) }
{
    let mut groups = Vec::new(alloc);
    for _ in 0..count {
        groups.push(Group {
            interleaves: false,
            members: Members::new(alloc),
        })?;
    }
    Ok(groups)
}

// The entries of so many definitions from the first on, gathered by definition.
fn grouped(
    alloc: Global,
    first: usize,
    count: usize,
    entries: &[Entry],
) -> Result<Vec<Group>, AllocError>
    requires { AreOf first count entries.now }
    ensures counted { IfOk result (λ r. length r.items ≡ count) }
    ensures groups { IfOk result (λ r. AreGroups first entries.now r.items) }
{
    let mut groups = no_groups(alloc, first, count)?;
    for entry in entries {
        groups[entry.definition - first].add(entry)?;
    }
    Ok(groups)
}

/// Gives each definition of the table its node: the interleave of its entries where one of them has `&=`, else their choice.
pub fn combine(
    alloc: Global,
    parts: &mut Parts,
    table: &Table<'_>,
    entries: &[Entry],
) -> Result<(), AllocError>
    requires definitions { table.now.base + length table.now.names < length parts.old.definitions }
    requires entries { AreEntries table.now.base (suc (length table.now.names)) (length parts.old.nodes) entries.now }
    ensures { OnOk result (AreDefined table.now.base (suc (length table.now.names)) entries.now parts.old parts.new) }
{
    let first = table.base();
    let mut groups = grouped(alloc, first, table.len() + 1, entries)?;
    while let Some(group) = groups.pop() {
        let node = parts.push(group.into_node())?;
        parts.set_definition(first + groups.len(), node);
    }
    Ok(())
}
