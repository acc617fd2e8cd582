// The copies of the instances of a list.
ghost use Rattle.std.specs.Prelude.{◌≡◌, length, slice_get};
ghost use Rattle.std.specs.Option.{option_copied, option_map};

use cg_base::Ty;
use cg_core::{Term, Typed};
use cg_inst::Instance;

/// A body: one of the copy's own, or that of the source, where no type variable stands in it.
#[derive(Drop)]
pub enum Body<'a> {
    Own(Term<Typed>),
    Source(&'a Term<Typed>),
}

impl<'a> Body<'a> {
    ghost use Rattle.cg_mono.specs.Copies.{core_by};

    /// The core.
    pub fn core(&self) -> &Term<Typed>
        ensures { result.now ≡ core_by self.now }
    {
        match self {
            Body::Own(core) => core,
            Body::Source(core) => core,
        }
    }
}

/// An instance with its type, and its body, where it has one.
#[derive(Drop)]
pub struct Copy<'a> {
    pub instance: Instance,
    pub ty: Ty,
    pub body: Option<Body<'a>>,
}

impl<'a> Copy<'a> {
    ghost use Rattle.cg_mono.specs.Copies.{body_by};

    /// The body, where it has one.
    pub fn core(&self) -> Option<&Term<Typed>>
        ensures { option_copied result ≡ body_by self.now }
    {
        match &self.body {
            Some(body) => Some(body.core()),
            None => None,
        }
    }
}

/// One copy for each instance of a list: its arrow type and its body, with the types of the instance in the place of the type variables
/// (docs/LANGUAGE.md, "Instances"). A body in which no type variable stands is that of the source, which stands once.
#[derive(Drop)]
pub struct Mono<'a> {
    pub(crate) copies: Vec<Copy<'a>>,
}

impl<'a> Mono<'a> {
    ghost use Rattle.cg_mono.specs.Monos.{body_in, copies_in};

    /// The copies, in the order of the list.
    pub fn as_slice(&self) -> &[Copy<'a>]
        ensures { result.now ≡ copies_in self.now }
    {
        self.copies.as_slice()
    }

    /// How many instances there are.
    pub fn len(&self) -> usize
        ensures { result ≡ length (copies_in self.now) }
    {
        self.copies.len()
    }

    /// The instance at a place; None exactly where there is none.
    pub fn instance(&self, at: u32) -> Option<&Instance>
        ensures { option_copied result ≡ option_map (λ c. c.instance) (slice_get (copies_in self.now) at) }
    {
        match self.copies.get(at as usize) {
            Some(copy) => Some(&copy.instance),
            None => None,
        }
    }

    /// Its type, of abstract functions and of the library's too; None exactly where there is no instance.
    pub fn ty(&self, at: u32) -> Option<&Ty>
        ensures { option_copied result ≡ option_map (λ c. c.ty) (slice_get (copies_in self.now) at) }
    {
        match self.copies.get(at as usize) {
            Some(copy) => Some(&copy.ty),
            None => None,
        }
    }

    /// Its body; None exactly where there is no instance, or it has no body.
    pub fn body(&self, at: u32) -> Option<&Term<Typed>>
        ensures { option_copied result ≡ body_in (slice_get (copies_in self.now) at) }
    {
        match self.copies.get(at as usize) {
            Some(copy) => copy.core(),
            None => None,
        }
    }
}
