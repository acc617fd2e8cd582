// The names of failed calls.
ghost use Rattle.std.specs.Prelude.{◌≡◌, ℕ, List, [], ◌∷◌, ◌++◌, OnOk, OnErr};

use cg_base::{Memory, Name};
use std::alloc::Global;
use std::marker::Model;

/// The names of the calls of one kind that failed, the first first. Contracts see the list of the names; how often a
/// name stands in it is the count of its failed calls, as docs/LANGUAGE.md, "The outside", has it.
#[derive(Drop)]
pub struct Failures {
    names: Vec<Name>,
}

impl Model for Failures {
    ghost use Rattle.std.specs.Prelude.{List, ℕ};

    ghost Value = { List (List ℕ) };

    ghost view = { λ f. f.names.items };
}

impl Failures {
    ghost use Rattle.cg_outside.specs.Failures.{times, OneMore};

    /// No failed call. It takes no memory.
    pub fn new(alloc: Global) -> Failures
        ensures { result ≡ [] }
    {
        Failures {
            names: Vec::new(alloc),
        }
    }

    /// Notes a name, before the call that may fail. Without memory the list stays as it was.
    pub fn note(&mut self, alloc: Global, name: &str) -> Result<(), Memory>
        ensures ok { OnOk result (self.new ≡ self.old ++ name.now ∷ []) }
        ensures count { OnOk result (OneMore name.now (times self.old) (times self.new)) }
        ensures err { OnErr result (self.new ≡ self.old) }
    {
        self.names.push(Name::new(alloc, name.as_bytes())?)?;
        Ok(())
    }

    /// Takes the last note back, after a call that did not fail.
    pub fn take_back(&mut self)
        ensures { (before : List (List ℕ)) (name : List ℕ) → self.old ≡ before ++ name ∷ [] → self.new ≡ before }
    {
        let _ = self.names.pop();
    }
}
