// Fronts of words.
ghost use Rattle.std.specs.Prelude.{◌≡◌, ◌++◌, IfSome, IfNone};
ghost use Rattle.rng_model.specs.Texts.{Text};

/// What stands behind the front, where the word begins with it.
pub(crate) fn behind<'a>(word: &'a str, front: &str) -> Option<&'a str>
    ensures some { IfSome result (λ rest. word.now ≡ front.now ++ rest.now) }
    ensures none { IfNone result ((v : Text) → word.now ≡ front.now ++ v → ⊥) }
{
    word.strip_prefix(front)
}
