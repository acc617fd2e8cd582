// Names that are in scope.
#![tactic(auto, using(std::proofs::lemmas::Grind::common_steps, crate::proofs::ScopeSteps::scope_steps))]

ghost use Rattle.std.specs.Prelude.{◌≡◌, ◌-◌, ◌++◌, ◌∷◌, [], ℕ, List, length, take, not, IfOk, OnOk, OnErr, if◌then◌else◌};
ghost use Rattle.cg_resolve_def.specs.Declared.{is_among};
ghost use Rattle.cg_resolve_declared.specs.Tables.{texts};
ghost use Rattle.cg_resolve_names.specs.Scopes.{IsScope, SameNames};

use cg_base::Memory;
use cg_resolve_declared::Names;
use std::alloc::Global;
use std::collections::BTreeSet;
use std::marker::Model;

/// The names that are in scope, each once, in the order in which they came into it.
pub struct Scope<'a> {
    names: Names<'a>,
    entered: Vec<&'a [u8]>,
}

impl<'a> Drop for Scope<'a> {
    fn drop(self) {
        let Scope { names, entered } = self;
        drop(names);
        drop(entered);
    }
}

impl<'a> Model for Scope<'a> {
    ghost Value = { List (List ℕ) };

    ghost view = { λ s. texts s.entered.items };

    ghost invariant = { λ s. IsScope (texts s.entered.items) s.names };
}

impl<'a> Scope<'a> {
    /// No names. It takes no memory.
    pub fn new(alloc: Global) -> Scope<'a>
        ensures { result ≡ [] }
    {
        Scope {
            names: BTreeSet::new(alloc),
            entered: Vec::new(alloc),
        }
    }

    /// How many names are in scope.
    pub fn len(&self) -> usize
        ensures { result ≡ length self.now }
    {
        self.entered.len()
    }

    /// Whether a name is in scope.
    pub fn holds(&self, name: &[u8]) -> bool
        ensures { result ≡ is_among self.now name.now }
    {
        self.names.contains(name)
    }

    /// Brings a name into scope, and answers whether it is new there. Want of memory is its one refusal, and leaves the scope as it was.
    pub fn enter(&mut self, name: &'a [u8]) -> Result<bool, Memory>
        ensures new { IfOk result (λ new. new ≡ not (is_among self.old name.now)) }
        ensures names { IfOk result (λ new. self.new ≡ self.old ++ (if new then name.now ∷ [] else [])) }
        ensures err { OnErr result (self.new ≡ self.old) }
    {
        if self.holds(name) {
            return Ok(false);
        }
        self.entered.push(name)?;
        match self.names.insert(name) {
            Ok(_) => Ok(true),
            Err(_) => {
                let _ = self.entered.pop();
                Err(Memory)
            }
        }
    }

    /// Brings names into scope, those that aren't there already. Want of memory is its one refusal, and leaves the scope as it was.
    pub fn enter_all(&mut self, names: &[&'a [u8]]) -> Result<(), Memory>
        ensures names { OnOk result (SameNames self.new (texts names.now ++ self.old)) }
        ensures kept { OnOk result (take (length self.old) self.new ≡ self.old) }
        ensures err { OnErr result (self.new ≡ self.old) }
    {
        let before = self.len();
        for name in names {
            match self.enter(*name) {
                Ok(_) => {}
                Err(memory) => {
                    self.leave(before);
                    return Err(memory);
                }
            }
        }
        Ok(())
    }

    /// The names that are in scope.
    pub fn names(&self) -> &[&'a [u8]]
        ensures { texts result.now ≡ self.now }
    {
        self.entered.as_slice()
    }

    /// Takes all but the first names out of scope again.
    pub fn leave(&mut self, kept: usize)
        ensures { self.new ≡ take kept self.old }
    {
        while self.len() > kept {
            self.forget();
        }
    }

    // Takes the last name out of scope again, where there is one.
    fn forget(&mut self)
        ensures { self.new ≡ take (length self.old - 1) self.old }
    {
        if let Some(name) = self.entered.pop() {
            let _ = self.names.remove(name);
        }
    }
}
