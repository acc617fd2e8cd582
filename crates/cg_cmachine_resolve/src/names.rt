// A program with its links, and where their names stand.
#![tactic(auto)]

ghost use Rattle.std.specs.Prelude.{◌≡◌, None, Some, map, IfOk, MatchOption, option_map};
ghost use Rattle.cg_cmachine_def.specs.BuiltIns.{built_in};
ghost use Rattle.cg_cmachine_def.specs.Runs.{find, linked_to};
ghost use Rattle.cg_ctree.specs.Trees.{function_of};
ghost use Rattle.cg_cmachine_resolve.specs.Indexes.{Indexes};
ghost use Rattle.cg_cmachine_resolve.specs.Lines.{Calls, IsAt};

use crate::Callee;
use crate::index::{Names, add_name, place_of};
use cg_base::{Memory, Name};
use cg_cmachine_builtins::named;
use cg_ctree::{CFun, CProgram};
use cg_heap::Link;
use std::alloc::Global;
use std::collections::BTreeMap;
use std::marker::Model;

/// A program with its links, the place of the first function of each name, and that of the first link of each function's name.
/// Contracts see the program and its links.
pub(crate) struct Named<'a> {
    program: &'a CProgram,
    links: &'a [Link],
    functions: Names<'a>,
    linked: Names<'a>,
}

impl<'a> Drop for Named<'a> {
    fn drop(self) {
        let Named {
            program: _,
            links: _,
            functions,
            linked,
        } = self;
        drop(functions);
        drop(linked);
    }
}

impl<'a> Model for Named<'a> {
    ghost use Rattle.std.specs.Coded.{codes};
    ghost use Rattle.cg_ctree.specs.contracts.tree.CStmt as statement;
    ghost use Rattle.cg_cmachine_resolve.specs.Lines.{Whole};
    ghost use Rattle.cg_cmachine_resolve.specs.Variables.{AreNamed};

    ghost Value = { Whole };

    ghost coded = { Prim.hlevel (codes, statement.the_row.coded) };

    ghost view = { λ n. record { program = n.program.now; links = n.links.now } };

    ghost invariant = { λ n. AreNamed (record { program = n.program.now; links = n.links.now }) n.functions n.linked };
}

impl<'a> Named<'a> {
    /// A program with its links, in time n log n.
    pub fn new(alloc: Global, program: &'a CProgram, links: &'a [Link]) -> Result<Named<'a>, Memory>
        ensures { IfOk result (λ named. named ≡ record { program = program.now; links = links.now }) }
    {
        let functions = index_functions(alloc, program.funs.as_slice())?;
        let linked = index_links(alloc, links)?;
        Ok(Named {
            program,
            links,
            functions,
            linked,
        })
    }

    /// The program.
    pub fn program(&self) -> &'a CProgram
        ensures { result.now ≡ self.now.program }
    {
        self.program
    }

    /// The place of the first function of a name.
    pub fn find(&self, name: &Name) -> Option<usize>
        ensures { MatchOption result (find name.now (map function_of self.now.program.funs) ≡ None)
            (λ i. IsAt self.now i (λ f. find name.now (map function_of self.now.program.funs) ≡ Some (function_of f))) }
    {
        place_of(&self.functions, name)
    }

    /// The abstract function that a function of a name is, if a link names it.
    pub fn linked(&self, name: &Name) -> Option<&'a Name>
        ensures { option_map (λ name. name.now) result ≡ linked_to name.now self.now.links }
    {
        let at = place_of(&self.linked, name)?;
        let link = self.links.get(at)?;
        Some(&link.name)
    }

    /// What a call of a name is.
    pub fn callee(&self, name: &Name) -> Callee<'a>
        ensures { Calls self.now name.now result }
    {
        if let Some(built_in) = named(name) {
            return Callee::BuiltIn(built_in);
        }
        match self.find(name) {
            None => Callee::Missing,
            Some(at) => self.own(name, at),
        }
    }

    /// What a call of a function of the program is.
    fn own(&self, name: &Name, at: usize) -> Callee<'a>
        requires free { built_in name.now ≡ None }
        requires found { IsAt self.now at (λ f. find name.now (map function_of self.now.program.funs) ≡ Some (function_of f)) }
        ensures { Calls self.now name.now result }
    {
        let function = &self.program.funs.as_slice()[at];
        if function.body.is_some() {
            return Callee::Own(at);
        }
        match self.linked(name) {
            None => Callee::Own(at),
            Some(name) => Callee::Linked(at, name),
        }
    }
}

/// The place of the first function of each name.
fn index_functions<'a>(alloc: Global, functions: &'a [CFun]) -> Result<Names<'a>, Memory>
    ensures { IfOk result (Indexes (map (λ f. f.name) functions.now)) }
{
    let mut names = BTreeMap::new(alloc);
    for (at, function) in functions.iter().enumerate() {
        add_name(&mut names, function.name.bytes(), at)?;
    }
    Ok(names)
}

/// The place of the first link of each function's name.
fn index_links<'a>(alloc: Global, links: &'a [Link]) -> Result<Names<'a>, Memory>
    ensures { IfOk result (Indexes (map (λ l. l.c) links.now)) }
{
    let mut names = BTreeMap::new(alloc);
    for (at, link) in links.iter().enumerate() {
        add_name(&mut names, link.c.bytes(), at)?;
    }
    Ok(names)
}
