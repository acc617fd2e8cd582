// Functions and programs with all names resolved.
ghost use Rattle.std.specs.Prelude.{◌≡◌, ◌+◌, ◌<◌, ◌^◌, [], None, Some, get_or, map, slice_get, IfOk, MatchOption, OnSome, option_map};
ghost use Rattle.cg_cmachine_def.specs.Runs.{find, linked_to};
ghost use Rattle.cg_ctree.specs.Trees.{function_of};
ghost use Rattle.cg_cmachine_resolve.specs.Lines.{IsAt};
ghost use Rattle.cg_cmachine_resolve.specs.Resolutions.{IsFirst, IsHead, IsLine, blocks_in, lines_at};

use crate::Line;
use crate::names::Named;
use crate::resolve::resolve_all;
use cg_base::{Memory, Name};
use cg_cmachine_layout::Kind;
use cg_ctree::CProgram;
use cg_heap::Link;
use std::alloc::Global;
use std::marker::Model;

/// A function: its type, its parameters' types, how many slots its variables have, whether it has a body, and its blocks, that
/// of the body first.
pub(crate) struct Code<'a> {
    pub kind: Kind<'a>,
    pub params: Vec<Kind<'a>>,
    pub slots: usize,
    pub has_body: bool,
    pub blocks: Vec<Vec<Line<'a>>>,
}

impl<'a> Drop for Code<'a> {
    fn drop(self) {
        let Code {
            kind: _,
            params,
            slots: _,
            has_body: _,
            blocks,
        } = self;
        drop(params);
        drop(blocks);
    }
}

impl<'a> Code<'a> {
    /// The statement at a place of a block; None where there is none.
    fn line(&self, block: usize, index: usize) -> Option<&Line<'a>>
        ensures line { option_map (λ line. line.now) result ≡ slice_get (get_or (map (λ lines. lines.items) self.now.blocks.items) block []) index }
        ensures small { OnSome result (index + 1 < 2 ^ 64) }
    {
        let lines = self.blocks.get(block)?;
        lines.get(index)
    }
}

/// What is told of a function without its statements.
#[derive(Clone, Copy)]
pub struct Head<'i, 'a> {
    /// Its type.
    pub kind: Kind<'a>,
    /// Its parameters' types.
    pub params: &'i [Kind<'a>],
    /// How many slots its parameters and locals have.
    pub slots: usize,
    /// Whether it has a body.
    pub has_body: bool,
}

/// A place among the statements of a program: the function, the block among those of the function, and how many statements of the
/// block stand before it. A body is the block 0.
#[derive(Clone, Copy)]
pub struct Position {
    pub function: usize,
    pub block: usize,
    pub index: usize,
}

/// A program with its links, in which each name is resolved once. Contracts see the program, its links and the statements of
/// each block.
#[derive(Drop)]
pub struct Resolved<'a> {
    named: Named<'a>,
    functions: Vec<Code<'a>>,
}

impl<'a> Model for Resolved<'a> {
    ghost use Rattle.std.specs.Coded.{codes};
    ghost use Rattle.cg_ctree.specs.contracts.tree.CStmt as statement;
    ghost use Rattle.std.specs.Prelude.{map};
    ghost use Rattle.std.specs.List.{AllZip};
    ghost use Rattle.cg_cmachine_resolve.specs.Resolutions.{IsCode, Resolution, sources};

    ghost Value = { Resolution };

    ghost coded = { Prim.hlevel (codes, statement.the_row.coded) };

    ghost view = { λ r. record { whole = r.named; blocks = map (λ code. map (λ lines. sources lines.items) code.blocks.items) r.functions.items } };

    ghost invariant = { λ r. AllZip (IsCode r.named) r.named.program.funs r.functions.items };
}

impl<'a> Resolved<'a> {
    /// Resolves all names of a program, in time n log n where no struct holds itself.
    pub fn new(
        alloc: Global,
        program: &'a CProgram,
        links: &'a [Link],
    ) -> Result<Resolved<'a>, Memory>
        ensures { IfOk result (λ r. r.whole ≡ record { program = program.now; links = links.now }) }
    {
        let named = Named::new(alloc, program, links)?;
        let functions = resolve_all(alloc, &named)?;
        Ok(Resolved { named, functions })
    }

    /// The place of the first function of a name.
    pub fn find(&self, name: &Name) -> Option<usize>
        ensures { MatchOption result (find name.now (map function_of self.now.whole.program.funs) ≡ None)
            (λ i. IsAt self.now.whole i (λ f. find name.now (map function_of self.now.whole.program.funs) ≡ Some (function_of f))) }
    {
        self.named.find(name)
    }

    /// What is told of the function at a place.
    pub fn head<'i>(&'i self, function: usize) -> Option<Head<'i, 'a>>
        ensures head { MatchOption result (slice_get self.now.whole.program.funs function ≡ None)
            (λ h. IsAt self.now.whole function (λ f. IsHead self.now.whole f h.kind h.params.now h.slots h.has_body)) }
        ensures first { OnSome result (IsAt self.now.whole function (λ f. IsFirst f.body (blocks_in self.now function))) }
    {
        let code = self.functions.get(function)?;
        Some(Head {
            kind: code.kind,
            params: code.params.as_slice(),
            slots: code.slots,
            has_body: code.has_body,
        })
    }

    /// The abstract function that the function at a place is, if a link names it.
    pub fn abstract_name(&self, function: usize) -> Option<&'a Name>
        ensures { MatchOption (slice_get self.now.whole.program.funs function) (result ≡ None)
            (λ f. option_map (λ name. name.now) result ≡ linked_to f.name self.now.whole.links) }
    {
        let function = self.named.program().funs.as_slice().get(function)?;
        self.named.linked(&function.name)
    }

    /// The statement at a place; None behind the last one of a block, and where there is no such block.
    pub fn line(&self, at: Position) -> Option<&Line<'a>>
        ensures line { MatchOption result (lines_at self.now at ≡ []) (λ line. IsLine self.now at line.now) }
        ensures small { OnSome result (at.index + 1 < 2 ^ 64) }
    {
        let code = self.functions.get(at.function)?;
        code.line(at.block, at.index)
    }
}
