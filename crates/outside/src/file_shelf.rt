// Real files as a shelf.
ghost use Rattle.std.specs.Prelude.{None, is_some, ◌≡◌, Option};

use crate::devices::{Failed, Shelf};
use std::fs;
use std::io::Read;
use std::rt::Files;

/// Real files. It tells no files, bytes or calls.
#[derive(Drop)]
pub struct FileShelf<R: Files + Clone + Drop> {
    rt: R,
    current: Option<R::File>,
    faults: u64,
}

impl<R: Files + Clone + Drop> FileShelf<R> {
    /// A shelf of the files that this runtime reaches. None is current, and no call has failed.
    pub fn new(rt: R) -> Self
        ensures current { result.current ≡ None }
        ensures faults { result.faults ≡ 0 }
    {
        FileShelf {
            rt,
            current: None,
            faults: 0,
        }
    }
}

impl<R: Files + Clone + Drop> Shelf for FileShelf<R> {
    ghost files = { λ s. None };

    ghost left = { λ s. None };

    ghost has_current = { λ s. is_some s.current };

    ghost calls = { λ s. None };

    ghost faults = { λ s. s.faults };

    ghost misses = { λ s. 0 };

    fn open_file(&mut self, name: &str) -> Result<(), Failed> {
        match fs::open(&self.rt, name) {
            Ok(file) => {
                self.current = Some(file);
                Ok(())
            }
            Err(_) => {
                self.current = None;
                self.faults = self.faults.saturating_add(1);
                Err(Failed)
            }
        }
    }

    fn read(&mut self, buf: &mut [u8]) -> Result<usize, Failed> {
        let Some(file) = &mut self.current else {
            return Ok(0);
        };
        match file.read(buf) {
            Ok(count) => Ok(count),
            Err(_) => {
                self.faults = self.faults.saturating_add(1);
                Err(Failed)
            }
        }
    }
}
