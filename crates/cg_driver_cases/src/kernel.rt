// The text of a kernel: a line for each function, and under it a line for each node of its body, the deeper the further to the right.
// Behind `@` stands a place; a place alone is where a variable is bound.
use cg_base::{Bound, Items, Name, Part, Place, Sigil, Ty, Word};
use cg_core::{At, FieldTerm, Form, Fun, KFun, Kernel, Op, Seen, Term, TyArg};
use std::alloc::{AllocError, Global};

/// The text of a kernel.
pub fn kernel_text(alloc: Global, kernel: &Kernel) -> Result<String, AllocError> {
    let mut text = String::new(alloc);
    for fun in kernel.funs.as_slice() {
        push_function(&mut text, fun)?;
    }
    Ok(text)
}

// A function: its name, type variables and type, and the place of its parameter where it has a body.
fn push_function(text: &mut String, fun: &KFun) -> Result<(), AllocError> {
    push_at(text, &fun.at)?;
    for bound in fun.vars.as_slice() {
        push_bound(text, bound)?;
    }
    push_written(text, &fun.ty)?;
    match &fun.body {
        None => text.push_str("\n")?,
        Some(body) => {
            push_binder(text, body.param)?;
            text.push_str("\n")?;
            push_term(text, 1, &body.term)?;
        }
    }
    Ok(())
}

fn push_place(text: &mut String, place: Place) -> Result<(), AllocError> {
    let line = place.line;
    let column = place.column;
    write!(text, "{line}:{column}")?;
    Ok(())
}

fn push_binder(text: &mut String, place: Place) -> Result<(), AllocError> {
    text.push_str(" ")?;
    push_place(text, place)
}

fn push_name(text: &mut String, name: &Name) -> Result<(), AllocError> {
    for byte in name.bytes() {
        text.push(char::from(*byte))?;
    }
    Ok(())
}

fn push_at(text: &mut String, at: &At) -> Result<(), AllocError> {
    push_name(text, &at.name)?;
    text.push_str("@")?;
    push_place(text, at.place)
}

fn push_mention(text: &mut String, at: &At) -> Result<(), AllocError> {
    text.push_str(" ")?;
    push_at(text, at)
}

// A type variable, with its permissions.
fn push_bound(text: &mut String, bound: &Bound) -> Result<(), AllocError> {
    text.push_str(" ")?;
    push_name(text, &bound.name)?;
    text.push_str(":")?;
    if bound.kinds.drop {
        text.push_str("D")?;
    }
    if bound.kinds.share {
        text.push_str("S")?;
    }
    if bound.kinds.escape {
        text.push_str("E")?;
    }
    Ok(())
}

fn push_written(text: &mut String, written: &TyArg) -> Result<(), AllocError> {
    text.push_str(" ")?;
    push_type(text, &written.ty)?;
    text.push_str("@")?;
    push_place(text, written.place)
}

fn push_sigil(text: &mut String, sigil: Sigil) -> Result<(), AllocError> {
    match sigil {
        Sigil::R => text.push_str(".r")?,
        Sigil::W => text.push_str(".w")?,
        Sigil::U => text.push_str(".u")?,
    }
    Ok(())
}

// A type variable by its number, with a mark behind it.
fn push_variable(text: &mut String, at: u32, mark: &str) -> Result<(), AllocError> {
    write!(text, "a{at}{mark}")?;
    Ok(())
}

fn push_word(text: &mut String, word: Word) -> Result<(), AllocError> {
    write!(text, "{word:?}")?;
    Ok(())
}

fn push_text(text: &mut String, more: &str) -> Result<(), AllocError> {
    text.push_str(more)?;
    Ok(())
}

/// A type.
#[cycle(push_type)]
pub fn push_type(text: &mut String, ty: &Ty) -> Result<(), AllocError> {
    match ty {
        Ty::Var(at) => push_variable(text, *at, ""),
        Ty::Seen(at) => push_variable(text, *at, "!"),
        Ty::Unit => push_text(text, "()"),
        Ty::Word(word) => push_word(text, *word),
        Ty::Bool => push_text(text, "Bool"),
        Ty::Arrow(from, to) => {
            text.push_str("(")?;
            push_type(text, from)?;
            text.push_str(" -> ")?;
            push_type(text, to)?;
            push_text(text, ")")
        }
        Ty::Abs(name, args, sigil) => push_abstract(text, name, args, *sigil),
        Ty::Variant(parts) => push_variant(text, parts),
        Ty::Fields(parts, sigil) => push_record(text, parts, *sigil),
    }
}

#[cycle(push_type)]
fn push_variant(text: &mut String, parts: &Items<Part>) -> Result<(), AllocError> {
    text.push_str("<")?;
    push_parts(text, parts)?;
    push_text(text, ">")
}

#[cycle(push_type)]
fn push_record(text: &mut String, parts: &Items<Part>, sigil: Sigil) -> Result<(), AllocError> {
    text.push_str("{")?;
    push_parts(text, parts)?;
    text.push_str("}")?;
    push_sigil(text, sigil)
}

#[cycle(push_type)]
fn push_abstract(
    text: &mut String,
    name: &Name,
    args: &Items<Ty>,
    sigil: Sigil,
) -> Result<(), AllocError> {
    text.push_str("(")?;
    push_name(text, name)?;
    push_sigil(text, sigil)?;
    for arg in args.as_slice() {
        text.push_str(" ")?;
        push_type(text, arg)?;
    }
    text.push_str(")")?;
    Ok(())
}

#[cycle(push_type)]
fn push_parts(text: &mut String, parts: &Items<Part>) -> Result<(), AllocError> {
    for part in parts.as_slice() {
        push_name(text, &part.name)?;
        text.push_str(" : ")?;
        push_type(text, &part.ty)?;
        text.push_str(if part.taken { " taken;" } else { ";" })?;
    }
    Ok(())
}

// The line of a node.
fn push_node(text: &mut String, depth: usize, term: &Term<Place>) -> Result<(), AllocError> {
    for _ in 0..depth {
        text.push_str(" ")?;
    }
    text.push_str(word_of(&term.form))?;
    text.push_str("@")?;
    push_place(text, term.note)?;
    push_details(text, &term.form)?;
    push_text(text, "\n")
}

/// A node and those under it, the deeper the further to the right.
#[cycle(push_term)]
pub fn push_term(text: &mut String, depth: usize, term: &Term<Place>) -> Result<(), AllocError> {
    push_node(text, depth, term)?;
    push_subterms(text, depth.saturating_add(1), &term.form)
}

fn word_of(form: &Form<Place>) -> &'static str {
    match form {
        Form::Var(_) => "var",
        Form::Unit => "unit",
        Form::Bool(_) => "bool",
        Form::Lit(_) => "lit",
        Form::Fun(_, _) => "fun",
        Form::Op(_, _) => "op",
        Form::App(_, _) => "app",
        Form::Let(_, _, _) => "let",
        Form::LetBang(_, _, _, _) => "letbang",
        Form::If(_, _, _) => "if",
        Form::Con(_, _) => "con",
        Form::Case(_, _, _, _, _) => "case",
        Form::Esac(_, _) => "esac",
        Form::Struct(_) => "struct",
        Form::Member(_, _) => "member",
        Form::Take(_, _, _, _, _) => "take",
        Form::Put(_, _, _) => "put",
        Form::Cast(_) => "cast",
        Form::Annot(_, _) => "annot",
    }
}

// A position.
fn push_position(text: &mut String, at: u32) -> Result<(), AllocError> {
    write!(text, " {at}")?;
    Ok(())
}

fn push_flag(text: &mut String, value: bool) -> Result<(), AllocError> {
    write!(text, " {value}")?;
    Ok(())
}

// A literal, or that it is too large.
fn push_literal(text: &mut String, value: Option<u64>) -> Result<(), AllocError> {
    match value {
        Some(value) => write!(text, " {value}")?,
        None => text.push_str(" none")?,
    }
    Ok(())
}

fn push_operator(text: &mut String, op: Op) -> Result<(), AllocError> {
    write!(text, " {op:?}")?;
    Ok(())
}

fn push_con(text: &mut String, name: &Name) -> Result<(), AllocError> {
    text.push_str(" ")?;
    push_name(text, name)
}

// The alternative of a case, and where its payload is bound.
fn push_alternative(text: &mut String, at: &At, payload: Place) -> Result<(), AllocError> {
    push_mention(text, at)?;
    push_binder(text, payload)
}

// The field that is taken, and where the rest and the value are bound.
fn push_taken(text: &mut String, at: &At, rest: Place, value: Place) -> Result<(), AllocError> {
    push_mention(text, at)?;
    push_binder(text, rest)?;
    push_binder(text, value)
}

// What a form holds beside its terms.
fn push_details(text: &mut String, form: &Form<Place>) -> Result<(), AllocError> {
    match form {
        Form::Var(at) => push_position(text, *at),
        Form::Bool(value) => push_flag(text, *value),
        Form::Lit(value) => push_literal(text, *value),
        Form::Fun(fun, args) => push_instance(text, *fun, args),
        Form::Op(op, _) => push_operator(text, *op),
        Form::Let(binder, _, _) => push_binder(text, *binder),
        Form::LetBang(seen, binder, _, _) => push_observers(text, seen, *binder),
        Form::Con(name, _) => push_con(text, name),
        Form::Case(_, at, payload, _, _) => push_alternative(text, at, *payload),
        Form::Esac(at, _) => push_mention(text, at),
        Form::Struct(fields) => push_fields(text, fields),
        Form::Member(_, at) => push_mention(text, at),
        Form::Take(_, at, rest, value, _) => push_taken(text, at, *rest, *value),
        Form::Put(_, at, _) => push_mention(text, at),
        Form::Annot(_, ty) => push_written(text, ty),
        Form::Unit | Form::App(_, _) | Form::If(_, _, _) | Form::Cast(_) => Ok(()),
    }
}

/// A function: its number, or its name in the library.
pub fn push_mentioned(text: &mut String, fun: Fun) -> Result<(), AllocError> {
    match fun {
        Fun::User(at) => write!(text, "{at}")?,
        Fun::Lib(lib) => write!(text, "{lib:?}")?,
    }
    Ok(())
}

// A function, with its type arguments.
fn push_instance(text: &mut String, fun: Fun, args: &Items<TyArg>) -> Result<(), AllocError> {
    text.push_str(" ")?;
    push_mentioned(text, fun)?;
    for arg in args.as_slice() {
        push_written(text, arg)?;
    }
    Ok(())
}

// Observed variables, and where what is observed in is bound.
fn push_observers(text: &mut String, seen: &Items<Seen>, binder: Place) -> Result<(), AllocError> {
    for one in seen.as_slice() {
        let var = one.var;
        write!(text, " {var}@")?;
        push_place(text, one.place)?;
    }
    push_binder(text, binder)
}

fn push_fields(text: &mut String, fields: &Items<FieldTerm<Place>>) -> Result<(), AllocError> {
    for field in fields.as_slice() {
        text.push_str(" ")?;
        push_name(text, &field.name)?;
    }
    Ok(())
}

#[cycle(push_term)]
fn push_subterms(text: &mut String, depth: usize, form: &Form<Place>) -> Result<(), AllocError> {
    match form {
        Form::Var(_) | Form::Unit | Form::Bool(_) | Form::Lit(_) | Form::Fun(_, _) => Ok(()),
        Form::Con(_, part)
        | Form::Esac(_, part)
        | Form::Member(part, _)
        | Form::Cast(part)
        | Form::Annot(part, _) => push_term(text, depth, part),
        Form::App(first, second)
        | Form::Let(_, first, second)
        | Form::LetBang(_, _, first, second)
        | Form::Take(first, _, _, _, second)
        | Form::Put(first, _, second) => {
            push_term(text, depth, first)?;
            push_term(text, depth, second)
        }
        Form::If(first, second, third) | Form::Case(first, _, _, second, third) => {
            push_term(text, depth, first)?;
            push_term(text, depth, second)?;
            push_term(text, depth, third)
        }
        Form::Op(_, operands) => push_operands(text, depth, operands),
        Form::Struct(fields) => push_values(text, depth, fields),
    }
}

#[cycle(push_term)]
fn push_operands(
    text: &mut String,
    depth: usize,
    operands: &Items<Term<Place>>,
) -> Result<(), AllocError> {
    for operand in operands.as_slice() {
        push_term(text, depth, operand)?;
    }
    Ok(())
}

#[cycle(push_term)]
fn push_values(
    text: &mut String,
    depth: usize,
    fields: &Items<FieldTerm<Place>>,
) -> Result<(), AllocError> {
    for field in fields.as_slice() {
        push_term(text, depth, &field.term)?;
    }
    Ok(())
}
