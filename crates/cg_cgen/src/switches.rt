// The functions that call the function of a tag.
#![tactic(auto, using(crate::proofs::Dispatching::dispatch_steps))]

ghost use Rattle.std.specs.Prelude.{◌≡◌, ◌∷◌, [], map, IfOk};
ghost use Rattle.cg_base.specs.declared.kind.Word.TheVariants.{U32 as Word32};
ghost use Rattle.cg_cgen_def.specs.Dispatches.{dispatch_body, dispatch_cases, dispatch_function, dispatched, second_name};
ghost use Rattle.cg_cgen_def.specs.Names.{declared, name as name_of};
ghost use Rattle.cg_cgen_def.specs.Places.{argument_name, local_name};
ghost use Rattle.cg_ctree.specs.declared.tree.CTy.TheVariants as c_types;
ghost use Rattle.cg_ctree.specs.Trees as trees;
ghost use Rattle.cg_cgen.specs.Dispatched.{call_of, variable_path};

use crate::copies::copy_type;
use cg_base::{Items, Memory, Name, Word};
use cg_cgen_lines::numbered;
use cg_ctree::{CBody, CCase, CDecl, CFun, COpnd, CPath, CRhs, CStmt, CTy};
use std::alloc::Global;

/// Of a dispatch function the types in C of what the functions take and give, and their tags: the function of tag k is `f<k>`
/// (docs/LANGUAGE.md, "The C of instances", functions).
#[derive(Drop)]
pub struct DispatchList {
    pub arg: CTy,
    pub result: CTy,
    pub tags: Items<u32>,
}

// The path to a variable, by a letter and a number.
fn variable(alloc: Global, letter: u8, number: usize) -> Result<CPath, Memory>
    ensures { IfOk result (λ p. p ≡ variable_path letter number) }
{
    Ok(CPath {
        base: numbered(alloc, letter, number)?,
        arrow: false,
        members: Items::new(alloc),
    })
}

// A call of the function of a tag on the second argument.
fn call(alloc: Global, tag: u32) -> Result<CRhs, Memory>
    ensures { IfOk result (λ r. r ≡ call_of tag) }
{
    let name = numbered(alloc, b'f', tag as usize)?;
    let mut operands = Items::new(alloc);
    operands.push(COpnd::Path(variable(alloc, b'a', 1)?))?;
    Ok(CRhs::Call(name, operands))
}

// `x0 = f<k>(a1); return x0;`
fn case(alloc: Global, tag: u32) -> Result<CCase, Memory>
    ensures { IfOk result (λ c. trees.case_of c ≡ record { tag = tag; body = dispatched tag }) }
{
    let mut body = Items::new(alloc);
    let to = variable(alloc, b'x', 0)?;
    body.push(CStmt::Assign(to, call(alloc, tag)?))?;
    body.push(CStmt::Return(COpnd::Path(variable(alloc, b'x', 0)?)))?;
    Ok(CCase {
        tag: u64::from(tag),
        body,
    })
}

// A case for each tag.
fn cases(alloc: Global, tags: &[u32]) -> Result<Items<CCase>, Memory>
    ensures { IfOk result (λ cs. trees.to_cases (map trees.case_of cs) ≡ dispatch_cases tags.now) }
{
    let mut cases = Items::new(alloc);
    for tag in tags {
        cases.push(case(alloc, *tag)?)?;
    }
    Ok(cases)
}

// A declaration of a type, by a letter and a number.
fn declaration(alloc: Global, ty: &CTy, letter: u8, number: usize) -> Result<CDecl, Memory>
    ensures { IfOk result (λ d. d ≡ declared ty.now (name_of letter number)) }
{
    let name = numbered(alloc, letter, number)?;
    let ty = copy_type(alloc, ty)?;
    Ok(CDecl { ty, name })
}

// The local that gets what the function of the tag gives.
fn locals(alloc: Global, ty: &CTy) -> Result<Items<CDecl>, Memory>
    ensures { IfOk result (λ ds. ds ≡ declared ty.now (local_name 0) ∷ []) }
{
    let mut locals = Items::new(alloc);
    locals.push(declaration(alloc, ty, b'x', 0)?)?;
    Ok(locals)
}

// One switch over the tags; nothing, where there are none.
fn body(alloc: Global, ty: &CTy, tags: &[u32]) -> Result<CBody, Memory>
    ensures { IfOk result (λ b. trees.body_of b ≡ dispatch_body ty.now tags.now) }
{
    let mut stmts = Items::new(alloc);
    if tags.len() == 0 {
        return Ok(CBody {
            locals: Items::new(alloc),
            stmts,
        });
    }
    let test = COpnd::Path(variable(alloc, b'a', 0)?);
    stmts.push(CStmt::Switch(test, cases(alloc, tags)?))?;
    let locals = locals(alloc, ty)?;
    Ok(CBody { locals, stmts })
}

// The parameters: a tag, and what the function of the tag is called with.
fn parameters(alloc: Global, arg: &CTy) -> Result<Items<CDecl>, Memory>
    ensures { IfOk result (λ ds. ds ≡ declared (c_types.Word Word32) argument_name ∷ declared arg.now second_name ∷ []) }
{
    let mut params = Items::new(alloc);
    params.push(declaration(alloc, &CTy::Word(Word::U32), b'a', 0)?)?;
    params.push(declaration(alloc, arg, b'a', 1)?)?;
    Ok(params)
}

/// The C function of a name that takes a tag and an argument: one switch, in which the case of each tag calls `f<tag>` on the argument and
/// returns what that gives; where there are no tags a body without statements (docs/LANGUAGE.md, "The C of instances", functions). What it does
/// in lowering's programs is the law `dispatch_is_simulated` of cg_lower_laws. The one error is want of memory.
pub fn dispatch(alloc: Global, name: Name, mono: &DispatchList) -> Result<CFun, Memory>
    ensures { IfOk result (λ f. trees.function_of f ≡ dispatch_function name mono.now.arg mono.now.result mono.now.tags) }
{
    let params = parameters(alloc, &mono.arg)?;
    let body = body(alloc, &mono.result, mono.tags.as_slice())?;
    Ok(CFun {
        ty: copy_type(alloc, &mono.result)?,
        name,
        params,
        body: Some(body),
    })
}
