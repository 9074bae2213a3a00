// Laws of the faults that come behind those of this crate.
ghost use Rattle.std.specs.Prelude.{◌≤◌, ℕ, None, Some};
ghost use Rattle.grammar_laws.specs.Files.{Full};
ghost use Rattle.simple_form_laws.specs.Faults.{BadValue, ExpandedTooDeep, Fault, HasFault, IsLoop, Loop, SimplifyRefusal, bad_values};
ghost use Rattle.name_resolution.specs.Least.{IsLeast};
ghost use Rattle.tree_faults.specs.Firsts.{IsClean, IsFreeOfLoops};

/// The fault of a tree that has none of this crate's: the loop of references with the least place, then too deep a pattern, then the value
/// with the least place that its type doesn't allow.
pub fn later_faults()
    ensures loops { (f : Full) (at : ℕ) → IsClean f → IsLoop f at → ((b : ℕ) → IsLoop f b → at ≤ b) → SimplifyRefusal f (Loop at) }
    ensures depth { (f : Full) → IsClean f → IsFreeOfLoops f → HasFault f ExpandedTooDeep → SimplifyRefusal f ExpandedTooDeep }
    ensures value { (f : Full) (at : ℕ) → IsClean f → IsFreeOfLoops f → (HasFault f ExpandedTooDeep → ⊥) → IsLeast (bad_values f) (Some at) →
        SimplifyRefusal f (BadValue at) }
    ensures none { (f : Full) → IsClean f → IsFreeOfLoops f → (HasFault f ExpandedTooDeep → ⊥) → IsLeast (bad_values f) None →
        (x : Fault) → HasFault f x → ⊥ }
{}
