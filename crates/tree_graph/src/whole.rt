// The graph of a schema.
ghost use Rattle.std.specs.Prelude.{◌≡◌, ◌<◌, length, IfOk};
ghost use Rattle.grammar_laws.specs.Files.{body_pattern};
ghost use Rattle.schema_tree.specs.Files.{full_of};
ghost use Rattle.schema_tree.specs.Trees.{body_of};
ghost use Rattle.tree_laws.specs.WholeBodies.{AreDistinct, references_of_body};
ghost use Rattle.simple_form_laws.specs.Forms.{element_places};
ghost use Rattle.simple_form_laws.specs.Faults.{Fault, HasFault, IsSimplifiable, fault_number};
ghost use Rattle.schema_graph.specs.Shown.{HasMembers, IsClosed, IsGraph};
ghost use Rattle.tree_graph.specs.Graphs.{no_table, start};
ghost use Rattle.tree_graph.specs.Walker.{CanWalk, Walks};

use crate::parts::Parts;
use crate::places::{add_places, add_places_in_items};
use crate::table::Table;
use crate::tokens::Tokens;
use crate::walk::Walker;
use name_resolution::Namespaces;
use schema_graph::Graph;
use schema_tree::{Body, Full};
use std::alloc::{AllocError, Global};

// The places of the tokens in a body.
fn token_places(alloc: Global, body: &Body) -> Result<Vec<usize>, AllocError>
    ensures { IfOk result (λ r. r.items ≡ element_places (body_pattern (body_of body.now))) }
{
    let mut places = Vec::new(alloc);
    match body {
        Body::Pattern(pattern) => add_places(pattern, &mut places)?,
        Body::Items(items) => add_places_in_items(items.as_slice(), &mut places)?,
    }
    Ok(places)
}

// The nodes of a body outside of which there is no grammar, and the number of its own.
fn walked(
    alloc: Global,
    names: &Namespaces<'_>,
    tokens: &Tokens,
    body: &Body,
) -> Result<(Parts, usize), AllocError>
    requires { CanWalk names.now tokens.now no_table no_table (start (length tokens.now)) (body_pattern (body_of body.now)) }
    ensures { IfOk result (λ r. Walks names.now tokens.now no_table no_table (start (length tokens.now)) r.0 (body_pattern (body_of body.now)) r.1) }
{
    let none = Table::new(alloc);
    let walker = Walker {
        alloc,
        names,
        tokens,
        inner: &none,
        outer: &none,
    };
    let mut parts = Parts::new(alloc, tokens.len());
    let root = walker.body(&mut parts, body)?;
    Ok((parts, root))
}

/// Makes the graph of a schema's tree, of which `names` has the files. What refers to a name leads to what the name's definitions are combined
/// to; tokens are numbered by place.
pub fn graph(alloc: Global, full: &Full, names: &Namespaces<'_>) -> Result<Graph, AllocError>
    requires names { names.now ≡ full.now.files }
    requires simplifiable { IsSimplifiable (full_of full.now) }
    requires faultless { (x : Fault) → fault_number x < 41 → HasFault (full_of full.now) x → ⊥ }
    requires references { AreDistinct (references_of_body (body_of full.now.body)) }
    ensures graph { IfOk result (IsGraph (full_of full.now)) }
    ensures closed { IfOk result IsClosed }
    ensures members { IfOk result HasMembers }
{
    let places = token_places(alloc, full.body())?;
    let tokens = Tokens::new(alloc, places)?;
    let (parts, root) = walked(alloc, names, &tokens, full.body())?;
    let (nodes, definitions, elements) = parts.into_lists();
    let elements = tokens.by_number(alloc, elements)?;
    Ok(Graph {
        nodes,
        definitions,
        elements,
        root,
    })
}
