// Terms that are open where the rest goes.
#![tactic(auto, using(std::proofs::lemmas::Grind::common_steps, crate::proofs::FrameLaws::around_more), unfolding(crate::specs::Frames::around_all))]

ghost use Rattle.std.specs.Prelude.{◌≡◌, ◌+◌, ◌*◌, ◌<◌, ◌≤◌, [], length, IfOk};
ghost use Rattle.cg_core.specs.Kernels.{the_term};
ghost use Rattle.cg_resolve_def.specs.Desugar.{term_limit};
ghost use Rattle.cg_resolve_sites.specs.Frames.{around};
ghost use Rattle.cg_resolve_sites.specs.Sites.{inside, level, Fits};

use cg_base::{Items, Memory, Place};
use cg_core::{At, Form, Seen, Term};
use std::alloc::Global;

/// A node that is open where the rest goes. `Let` is at a place, and has the place of the variable and what it is bound to;
/// `LetBang` has the variables too that are observed in it. `Take` is at a place, which is that of what is left too, and
/// has the record, the field and the place of its value. `Case` has the subject, the alternative, the place of the payload
/// and the first branch.
#[derive(Drop)]
pub enum Frame {
    Let(Place, Place, Term<Place>),
    LetBang(Place, Items<Seen>, Place, Term<Place>),
    Take(Place, Term<Place>, At, Place),
    Case(Place, Term<Place>, At, Place, Term<Place>),
}

/// A term that is open where the rest goes: how many nodes lie above it, its frames from the outermost on, and the scope
/// there, whose innermost entry is the last.
#[derive(Drop)]
pub struct Site<'a> {
    pub above: usize,
    pub frames: Vec<Frame>,
    pub scope: Vec<Option<&'a [u8]>>,
}

impl Site<'_> {
    /// How many nodes lie above the rest.
    pub fn level(&self) -> usize
        requires { level self.now ≤ term_limit }
        ensures { result ≡ level self.now }
    {
        self.above + self.frames.len()
    }

    /// The whole term, with this one where the rest goes. Want of memory is its one refusal.
    pub fn close(&mut self, alloc: Global, rest: Term<Place>) -> Result<Term<Place>, Memory>
        ensures { IfOk result (λ t. the_term t ≡ inside self.old (the_term rest)) }
    {
        let mut whole = rest;
        while let Some(frame) = self.frames.pop() {
            whole = around(alloc, frame, whole)?;
        }
        Ok(whole)
    }
}

// A frame round a term.
fn around(alloc: Global, frame: Frame, rest: Term<Place>) -> Result<Term<Place>, Memory>
    ensures { IfOk result (λ t. the_term t ≡ around frame (the_term rest)) }
{
    let rest = Box::new(alloc, rest)?;
    let (note, form) = match frame {
        Frame::Let(note, place, value) => {
            (note, Form::Let(place, Box::new(alloc, value)?, rest))
        }
        Frame::LetBang(note, seen, place, value) => {
            (
                note,
                Form::LetBang(seen, place, Box::new(alloc, value)?, rest),
            )
        }
        Frame::Take(note, whole, at, place) => {
            (
                note,
                Form::Take(Box::new(alloc, whole)?, at, note, place, rest),
            )
        }
        Frame::Case(note, subject, at, place, first) => {
            let subject = Box::new(alloc, subject)?;
            let first = Box::new(alloc, first)?;
            (note, Form::Case(subject, at, place, first, rest))
        }
    };
    Ok(Term { note, form })
}

/// A site where nothing is done. Want of memory is its one refusal.
#[inline(never)]
pub fn new_site<'a>(
    alloc: Global,
    scope: &[Option<&'a [u8]>],
    above: usize,
) -> Result<Site<'a>, Memory>
    requires above { above ≤ term_limit }
    requires scope { length scope.now ≤ 2 * above + 1 }
    ensures fits { IfOk result Fits }
    ensures above { IfOk result (λ made. made.above ≡ above) }
    ensures frames { IfOk result (λ made. made.frames.items ≡ []) }
    ensures scope { IfOk result (λ made. made.scope.items ≡ scope.now) }
{
    let mut entries = Vec::new(alloc);
    entries.extend_from_slice(scope)?;
    Ok(Site {
        above,
        frames: Vec::new(alloc),
        scope: entries,
    })
}
