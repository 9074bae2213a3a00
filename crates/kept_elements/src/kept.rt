// The numbers of the elements that are kept.
ghost use Rattle.std.specs.Prelude.{◌≡◌, ℕ, ◌<◌, ◌↔◌, length, IfOk, Contains};
ghost use Rattle.std.specs.Ordering.{nat_cmp};
ghost use Rattle.std.specs.List.Sorted.{IsStrictlySortedBy};
ghost use Rattle.rng_model.specs.Patterns.{ref};
ghost use Rattle.simple_form_laws.specs.Forms.{new_number};
ghost use Rattle.kept_elements.specs.Marking.{AreWanted, IsMarked};
ghost use Rattle.kept_elements.specs.Outcomes.{AreKept};
ghost use Rattle.kept_elements.specs.Wanted.{IsReady, IsWanted};

use pattern_forms::Forms;
use pattern_intern::{Node, PatternId};
use schema_graph::Graph;
use std::alloc::{AllocError, Global};

// Which elements a marked pattern refers to.
fn referred(
    alloc: Global,
    graph: &Graph,
    forms: &Forms,
    marks: &[bool],
) -> Result<Vec<bool>, AllocError>
    requires ready { IsReady graph.now forms.now.pool forms.now.forms.items }
    requires wanted { AreWanted graph.now forms.now.pool forms.now.forms.items marks.now }
    ensures { IfOk result (λ r. (n : ℕ) → IsMarked r.items n ↔ IsWanted graph.now forms.now.pool forms.now.forms.items (ref n)) }
{
    let mut elements = vec![in alloc; false; graph.elements.len()]?;
    for id in 0..marks.len() {
        if marks[id] {
            if let Node::Ref(number) = forms.pool.node(PatternId(id)) {
                elements[number] = true;
            }
        }
    }
    Ok(elements)
}

// The numbers that are marked, in their order.
fn marked_numbers(alloc: Global, marks: &[bool]) -> Result<Vec<usize>, AllocError>
    ensures ascending { IfOk result (λ r. IsStrictlySortedBy nat_cmp r.items) }
    ensures each { IfOk result (λ r. (n : ℕ) → Contains r.items n ↔ IsMarked marks.now n) }
{
    let mut numbers = Vec::new(alloc);
    for number in 0..marks.len() {
        if marks[number] {
            numbers.push(number)?;
        }
    }
    Ok(numbers)
}

/// The numbers of the elements that are referred to in what is wanted, in their order.
pub(crate) fn kept_numbers(
    alloc: Global,
    graph: &Graph,
    forms: &Forms,
    marks: &[bool],
) -> Result<Vec<usize>, AllocError>
    requires ready { IsReady graph.now forms.now.pool forms.now.forms.items }
    requires wanted { AreWanted graph.now forms.now.pool forms.now.forms.items marks.now }
    ensures { IfOk result (λ r. AreKept graph.now forms.now.pool forms.now.forms.items r.items) }
{
    let elements = referred(alloc, graph, forms, marks)?;
    marked_numbers(alloc, &elements)
}

/// The place of a kept element among those that are kept, which is its number from now on.
pub(crate) fn place(kept: &[usize], number: usize) -> usize
    requires ascending { IsStrictlySortedBy nat_cmp kept.now }
    requires kept { Contains kept.now number }
    ensures place { result ≡ new_number kept.now number }
    ensures within { result < length kept.now }
{
    match kept.binary_search(&number) {
        Ok(place) => place,
        Err(_) => unreachable!(),
    }
}
