//! The program: the words, files and streams of the process, handed to `list_command::run`.
#![tactic(auto)]

ghost use Rattle.std.specs.Prelude.{◌≡◌, ◌<◌};

use list_command::{Outcome, run, write_fault_line};
use outside::{FileShelf, StdSink, Steps};
use std::alloc::{AllocError, Global};
use std::env;
use std::io::{BufWriter, ErrorKind, Write};
use std::marker::Brand;
use std::process::ExitCode;
use std::rt::{Env, Files};
use std::sync::ledger::{Blank, Ledger};

/// Standard output is handed over in pieces of so many bytes.
const PIECE: usize = 65_536;

/// The words after the program's name. Arguments that are not UTF-8 count as no words, which no command has.
fn words_of<R: Env + AllocGlobal>(rt: &R) -> Result<Vec<String>, AllocError> {
    match env::args(rt) {
        Ok(args) => args.skip(1).collect::<Vec<String>>(rt.alloc()),
        Err(error) if error.kind() == ErrorKind::OutOfMemory => Err(AllocError),
        Err(_) => Ok(Vec::new(rt.alloc())),
    }
}

/// How a run ends whose steps are counted from 0.
fn ending<L: Ledger, R: Files + Clone + Drop, O: Write + Drop, E: Write + Drop>(
    alloc: Global,
    blank: Blank,
    words: &Vec<String>,
    shelf: &mut FileShelf<R>,
    out: &mut StdSink<O>,
    err: &mut StdSink<E>,
) -> Outcome
    requires name { blank.name ≡ L.name }
    requires parts { blank.parts ≡ L.parts }
    requires some { 0 < L.parts }
{
    let mut steps: Steps<L> = Steps::new(blank);
    run(alloc, words, shelf, out, err, &mut steps)
}

/// Hands over what standard output still holds back. Where that fails, it is a write fault.
fn finish<O: Write + Drop, E: Write + Drop>(
    outcome: Outcome,
    out: &mut StdSink<O>,
    err: &mut StdSink<E>,
) -> u8 {
    if out.flush().is_ok() {
        return outcome.status();
    }
    if matches!(outcome, Outcome::Done | Outcome::Page) {
        write_fault_line(&Outcome::WriteFault, err);
    }
    Outcome::WriteFault.status()
}

fn main(rt: HostRuntime) -> ExitCode {
    let alloc = rt.alloc();
    let Ok(words) = words_of(&rt) else {
        return ExitCode::from(Outcome::OutOfMemory.status());
    };
    let Ok(buffered) = BufWriter::with_capacity(alloc, PIECE, rt.stdout()) else {
        return ExitCode::from(Outcome::OutOfMemory.status());
    };
    let mut out = StdSink::new(buffered);
    let mut err = StdSink::new(rt.stderr());
    let mut shelf = FileShelf::new(rt);
    let blank = Blank::new(1);
    let outcome = ending::<Brand, _, _, _>(alloc, blank, &words, &mut shelf, &mut out, &mut err);
    if matches!(outcome, Outcome::WriteFault) {
        // What the buffer holds is let go and not handed over: it would stand behind what failed.
        let (_stdout, _held) = out.into_inner().into_parts();
        return ExitCode::from(outcome.status());
    }
    ExitCode::from(finish(outcome, &mut out, &mut err))
}
