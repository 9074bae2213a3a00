// Texts looked up in a choice with a member of each sort, and in a choice with any text.
ghost use Rattle.std.specs.Prelude.{◌<◌, IfOk};
ghost use Rattle.pattern_intern.specs.Stored.{count};

use pattern_intern::{PatternId, Pool};
use std::alloc::AllocError;
use text_atoms::{Kind, Text};
use value_sets::ValueSets;

/// The choice of a string, a token, an integer and the booleans.
fn choice(pool: &mut Pool) -> Result<PatternId, AllocError>
    ensures { IfOk result (λ id. id.0 < count pool.new) }
{
    let string = pool.value(Kind::Str, " a")?;
    let token = pool.value(Kind::Token, " b  c ")?;
    let integer = pool.value(Kind::Integer, "07")?;
    let boolean = pool.data_type(Kind::Boolean, None)?;
    let texts = pool.choice(string, token)?;
    let others = pool.choice(integer, boolean)?;
    pool.choice(texts, others)
}

/// Whether the choice takes the text, asked before there is a set and after it is made.
fn answers(
    pool: &Pool,
    id: PatternId,
    text: &str,
) -> Result<(Option<bool>, Option<bool>), AllocError>
    requires { id.0 < count pool.now }
{
    let text = Text::from_string(String::from_str(pool.allocator(), text)?);
    let mut sets = ValueSets::new(pool.allocator());
    let before = sets.takes(pool, &text, id)?;
    let after = sets.takes(pool, &text, id)?;
    Ok((before, after))
}

#[test]
fn texts_of_a_choice(rt: HostRuntime) -> Result<(), AllocError> {
    let mut pool = Pool::new(rt.alloc())?;
    let id = choice(&mut pool)?;
    let rows = [
        (" a", true),
        ("a", false),
        ("b c", true),
        (" b\tc", true),
        ("bc", false),
        ("+7 ", true),
        ("8", false),
        ("false", true),
        ("", false),
    ];
    for (text, taken) in rows {
        let answers = answers(&pool, id, text)?;
        assert!(rt; answers == (Some(taken), Some(taken)));
    }
    Ok(())
}

#[test]
fn none_of_any_text(rt: HostRuntime) -> Result<(), AllocError> {
    let mut pool = Pool::new(rt.alloc())?;
    let values = choice(&mut pool)?;
    let any = pool.any_text();
    let id = pool.choice(values, any)?;
    let answers = answers(&pool, id, "b c")?;
    assert!(rt; answers == (None, None));
    Ok(())
}
