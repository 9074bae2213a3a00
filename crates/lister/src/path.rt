// The codes of a document as far as they are found.
ghost use Rattle.std.specs.Prelude.{◌≡◌, ◌*◌, ◌≤◌, ◌<◌, [], map, length, IfOk, IfSome, IfNone};
ghost use Rattle.skeleton.specs.Views.{code_of};
ghost use Rattle.lister.specs.OpenElements.{open_at, open_of};
ghost use Rattle.lister.specs.Paths.{empty_path, with_code, with_step, IsBack};

use crate::standing::{Standing, after, at_start};
use feasibility::StateId;
use skeleton::Code;
use std::alloc::{AllocError, Global};
use std::marker::Model;

/// A state before a code, and what is open there.
#[derive(Clone, Copy)]
pub(crate) struct Step {
    id: StateId,
    standing: Standing,
}

/// The codes of a document as far as they are found, the states before the first of them, and what is open before each of these and
/// after all. There is room for three codes for each of `room` nodes, and for as many states.
#[derive(Drop)]
pub(crate) struct Path {
    room: usize,
    codes: Vec<Code>,
    steps: Vec<Step>,
    standing: Standing,
}

impl Model for Path {
    ghost use Rattle.std.specs.Prelude.{◌*◌, ◌≤◌, map, vec_capacity};
    ghost use Rattle.skeleton.specs.Views.{code_of};
    ghost use Rattle.lister.specs.Paths.{Path as PathValue};
    ghost use Rattle.lister.specs.Standings.{AreStandings};

    ghost Value = { PathValue };

    ghost view = { λ p. record {
      room = p.room;
      codes = map code_of p.codes.items;
      states = map (λ s. s.id.0) p.steps.items;
    } };

    ghost invariant = { λ p. (p.room ≤ 64) × (3 * p.room ≤ vec_capacity p.codes) × (3 * p.room ≤ vec_capacity p.steps)
        × AreStandings p.codes.items p.steps.items p.standing };
}

impl Path {
    /// A path without codes, with room for `room` nodes.
    pub fn new(alloc: Global, room: usize) -> Result<Path, AllocError>
        requires { room ≤ 64 }
        ensures { IfOk result (λ path. path ≡ empty_path room) }
    {
        Ok(Path {
            room,
            codes: Vec::with_capacity(alloc, 3 * room)?,
            steps: Vec::with_capacity(alloc, 3 * room)?,
            standing: at_start(),
        })
    }

    /// The codes.
    pub fn codes(&self) -> &[Code]
        ensures { map code_of result.now ≡ self.now.codes }
    {
        self.codes.as_slice()
    }

    /// What is open after the codes.
    pub fn standing(&self) -> Standing
        ensures { open_of result ≡ open_at self.now.codes }
    {
        self.standing
    }

    /// Takes all codes and states away.
    pub fn clear(&mut self)
        ensures { self.new ≡ empty_path self.old.room }
    {
        self.codes.clear();
        self.steps.clear();
        self.standing = at_start();
    }

    /// Adds a code.
    pub fn push(&mut self, code: Code)
        requires { length self.old.codes < 3 * self.old.room }
        ensures { self.new ≡ with_code self.old (code_of code) }
    {
        self.standing = after(self.standing, code);
        self.codes.push(code).unwrap();
    }

    /// Adds a code and the state before it, where one stands before each of the codes.
    #[inline(always)]
    pub fn push_step(&mut self, id: StateId, code: Code)
        requires codes { length self.old.codes < 3 * self.old.room }
        requires level { length self.old.states ≡ length self.old.codes }
        ensures { self.new ≡ with_step self.old id.0 (code_of code) }
    {
        let standing = self.standing;
        self.standing = after(standing, code);
        self.codes.push(code).unwrap();
        self.steps.push(Step { id, standing }).unwrap();
    }

    /// Takes the last state away, and the codes from the one behind it on.
    pub fn pop_step(&mut self) -> Option<(StateId, Code)>
        ensures some { IfSome result (λ step. IsBack self.old self.new step.0.0 (code_of step.1)) }
        ensures none { IfNone result (self.old.states ≡ []) }
        ensures room { self.new.room ≡ self.old.room }
    {
        let step = self.steps.pop()?;
        let place = self.steps.len();
        let code = self.codes[place];
        self.codes.truncate(place);
        self.standing = step.standing;
        Some((step.id, code))
    }
}
