// The texts of three schemas.
use seeded_schema::make;
use std::alloc::Global;
use std::test::Fail;

/// Whether the schema of the number has 25 lines, begins with the root and ends so.
fn ends_so(alloc: Global, number: u32, last: &str) -> Result<bool, Fail> {
    let text = make(alloc, number)?;
    let lines = text.iter().filter(|byte| **byte == b'\n').count();
    let first =
        b"start = element r { ea, eb, ec, ed, ee, ef, eg, eh, ei, ej, ek, el, em, en, eo, ep, eq, er, es, et, eu, ev, ew, ex }\nea = ";
    Ok(lines == 25 && text.starts_with(first) && text.ends_with(last.as_bytes()))
}

#[test]
fn schemas(rt: HostRuntime) -> Result<(), Fail> {
    let rows = [
        (
            0,
            "\neu = element eu { empty }?\nev = element ev { \"v\" | \"w\" }\new = element ew { empty }\nex = element ex { \"v\" | \"w\" }\n",
        ),
        (
            1,
            "\neu = element eu { \"v\" }\nev = element ev { \"v\" }\new = element ew { empty }\nex = element ex { \"v\" | \"w\" }\n",
        ),
        (
            4_294_967_295,
            "\nev = element ev { empty }\new = element ew { \"v\" }\nex = element ex { \"v\" | \"w\" }\n",
        ),
    ];
    for (number, last) in rows {
        assert!(rt; ends_so(rt.alloc(), number, last)?);
    }
    Ok(())
}
