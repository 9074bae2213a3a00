// The fresh text.
ghost use Rattle.std.specs.Prelude.{◌≡◌, Contains, IfOk, codes};
ghost use Rattle.rng_model.specs.Fresh.{numbered, IsFirstFree};

use crate::text::Text;
use std::alloc::{AllocError, Global};
use std::collections::BTreeSet;

// `t`, or `t` and the number.
fn numbered(alloc: Global, number: usize) -> Result<Text, AllocError>
    ensures { IfOk result (λ t. t ≡ numbered (codes "t") number) }
{
    let string = if number == 0 {
        String::from_str(alloc, "t")?
    } else {
        format!(in alloc; "t{number}")?
    };
    Ok(Text::from_string(string))
}

/// The first of `t`, `t1`, `t2`, .. that isn't taken. Of one more than are taken, one is free.
pub(crate) fn first_free(alloc: Global, taken: &BTreeSet<Text>) -> Result<Text, AllocError>
    ensures { IfOk result (λ t. IsFirstFree (Contains taken.now.keys) (codes "t") t) }
{
    for number in 0..taken.len() + 1 {
        let text = numbered(alloc, number)?;
        if !taken.contains(&text) {
            return Ok(text);
        }
    }
    unreachable!()
}
