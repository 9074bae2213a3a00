//! Benchmarks that are run by hand: `benchmarks NAME` times one, and without a name they are listed. No figure is asserted.
#![tactic(auto)]

mod atoms;
mod pools;
mod reading;

use atoms::time_atoms;
use pools::time_pool;
use reading::{time_lexer, time_parser, time_reader};
use std::{env, io};

/// Times the benchmark of a name. False where there is none.
fn time(rt: &HostRuntime, name: &str) -> io::Result<bool> {
    Ok(
        time_lexer(rt, name)?
            || time_parser(rt, name)?
            || time_reader(rt, name)?
            || time_atoms(rt, name)?
            || time_pool(rt, name)?,
    )
}

fn main(rt: HostRuntime) -> io::Result<()> {
    let mut words = env::args(&rt)?;
    if let Some(name) = words.nth(1) {
        if time(&rt, name.as_str())? {
            return Ok(());
        }
    }
    println!(rt;
        "lex-short-tokens lex-comment lex-elements lex-quotes lex-escaped-names lex-escapes parse-choice parse-group parse-definitions parse-declarations parse-annotations read-elements read-short-lines read-texts read-escapes read-namespaces atoms alike pool-mixed pool-choice pool-choice-of-all pool-group pool-names"
    )?;
    Ok(())
}
