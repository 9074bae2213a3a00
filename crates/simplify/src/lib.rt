//! The simple form of a schema's tree, or the fault for which the tree is refused.
#![tactic(auto)]

ghost use Rattle.std.specs.Prelude.{◌≡◌, ℕ, IfOk, IfErr};
ghost use Rattle.schema_tree.specs.Features.{HasFeature};
ghost use Rattle.schema_tree.specs.Files.{full_of};
ghost use Rattle.schema_tree.specs.Trees.{body_of};
ghost use Rattle.schema_tree.specs.declared.features.Feature.{Feature};
ghost use Rattle.simple_form_laws.specs.Faults.{IsSimplifiable, Simple};
ghost use Rattle.tree_laws.specs.WholeBodies.{AreDistinct, references_of_body};
ghost use Rattle.tree_faults.specs.Firsts.{IsClean};
ghost use Rattle.simplify.specs.Refusals.{IsRefusal, IsFormed};

mod fault;

pub use fault::SimplifyFault;
use kept_elements::schema;
use name_resolution::Namespaces;
use pattern_forms::forms_of;
use pattern_intern::Schema;
use schema_tree::Full;
use simple_form_laws::one_schema;
use std::alloc::Global;
use tree_faults::{bad_value, first_fault, later_faults};
use tree_graph::graph;

/// The simple form of a tree in which no feature stands that isn't taken (section Simplification), or the fault with the least
/// number, and of these the one with the least place. No two references of the tree stand at one place.
pub fn simplify(alloc: Global, full: &Full) -> Result<Schema, SimplifyFault>
    requires taken { (f : Feature) (at : ℕ) → HasFeature (full_of full.now) f at → ⊥ }
    requires references { AreDistinct (references_of_body (body_of full.now.body)) }
    ensures ok { IfOk result (λ r. Simple (full_of full.now) r.schema) }
    ensures refused { IfErr result (IsRefusal (full_of full.now)) }
{
    let names = Namespaces::of(alloc, full)?;
    if let Some(fault) = first_fault(alloc, full, &names)? {
        return Err(SimplifyFault::of_tree(fault));
    }
    let schema = form_of(alloc, full, &names)?;
    later_faults();
    match bad_value(full, &names) {
        Some(at) => Err(SimplifyFault::BadValue { at }),
        None => Ok(schema),
    }
}

// What isn't taken is all that keeps a tree from being simplified.
fn is_simplifiable(full: &Full)
    requires { (f : Feature) (at : ℕ) → HasFeature (full_of full.now) f at → ⊥ }
    ensures { IsSimplifiable (full_of full.now) }
{
    let _body = full.body();
}

// The simple form of a tree that has no fault before loops, and not too deep.
fn form_of(alloc: Global, full: &Full, names: &Namespaces<'_>) -> Result<Schema, SimplifyFault>
    requires files { names.now ≡ full.now.files }
    requires taken { (f : Feature) (at : ℕ) → HasFeature (full_of full.now) f at → ⊥ }
    requires references { AreDistinct (references_of_body (body_of full.now.body)) }
    requires clean { IsClean (full_of full.now) }
    ensures formed { IfOk result (λ r. IsFormed (full_of full.now) r.schema) }
    ensures refused { IfErr result (IsRefusal (full_of full.now)) }
{
    is_simplifiable(full);
    let graph = graph(alloc, full, names)?;
    later_faults();
    one_schema();
    let forms = forms_of(alloc, &graph)?;
    Ok(schema(alloc, &graph, forms)?)
}
