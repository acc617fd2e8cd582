// Lists of instances, and their copies.
use cg_base::{Fun, Items, Lib, Limit, Ty, Word};
use cg_check_tests::{checked_source, kernel_in};
use cg_inst::{InstFault, Instance, Instances, instances};
use cg_kinds::same;
use cg_mono::mono;
use cg_typing::Checked;
use std::alloc::Global;
use std::process::Abort;
use std::test::Fail;

const APPEND: &str = "type Super = {magic : U32, used : U32, buf : WordArray U8}
type Err = <BadMagic U32 | Full>
type Res = (Super, <Error Err | Success U32>)

sumf : #{elem : U8, acc : U32, obsv : ()!} -> U32
sumf r = r.acc + upcast r.elem

total : Super! -> U32
total s = wordarray_fold[U8, U32, ()] #{arr = s.buf, frm = 0,
  to = wordarray_length[U8] (s.buf), f = sumf, acc = 0, obsv = ()}

append : (Super, U8) -> Res
append (s, b) = if s.magic /= 4096 !s
  then let m = s.magic !s in (s, Error (BadMagic m))
  else let n = wordarray_length[U8] (s.buf) !s
       and u = s.used !s
       in if u >= n
          then (s, Error Full)
          else let s1 {buf = w, used = k} = s
               and w = wordarray_put[U8] (w, k, b)
               and s2 = s1 {buf = w, used = k + 1}
               and t = total s2 !s2
               in (s2, Success t)
";

/// The types of its instances, as those of functions.
const APPEND_TYPES: &str = "type Super = {magic : U32, used : U32, buf : WordArray U8}
sumf : #{elem : U8, acc : U32, obsv : ()!} -> U32
total : Super! -> U32
append : (Super, U8) -> (Super, <Error <BadMagic U32 | Full> | Success U32>)
fold : #{arr : (WordArray U8)!, frm : U32, to : U32, f : #{elem : U8, acc : U32, obsv : ()!} -> U32, acc : U32, obsv : ()!} -> U32
length : (WordArray U8)! -> U32
put : (WordArray U8, U32, U8) -> WordArray U8
";

const NEW_AND_FREE: &str = "type R = {x : U32}
f : SysState -> SysState
f s = let (s, r) = new[R] s in r
  | None -> s
  | Some p -> free[R] (s, p)
";

const ABSTRACT: &str =
    "eat : SysState -> ()\nf : SysState -> ()\nf s = eat s\ng : all a. a -> a\ng x = x\n";

/// An instance of a function at one word type.
fn at_word(alloc: Global, fun: Fun, word: Word) -> Result<Instance, Fail> {
    let mut args = Items::new(alloc);
    args.push(Ty::Word(word))?;
    Ok(Instance { fun, args })
}

/// The list of instances of a source that passes no limit.
fn listed(rt: &impl Abort, alloc: Global, checked: &Checked) -> Result<Instances, Fail> {
    match instances(alloc, checked) {
        Ok(list) => Ok(list),
        Err(_) => panic!(rt; "no list of instances"),
    }
}

/// How many instances a source has, or the limit that is passed.
fn counted(rt: &impl Abort, alloc: Global, source: &str) -> Result<Result<usize, Limit>, Fail> {
    let checked = checked_source(alloc, source)?;
    match instances(alloc, &checked) {
        Ok(list) => Ok(Ok(list.len())),
        Err(InstFault::Limit(limit)) => Ok(Err(limit)),
        Err(InstFault::Memory) => panic!(rt; "no memory"),
    }
}

/// Functions p0 to p<last>, each of which mentions the one before it at two types; and f, which mentions the last one.
fn row(alloc: Global, last: u32) -> Result<String, Fail> {
    let mut text = format!(in alloc;
        "f : () -> ()\nf x = p{last}[U8] x\np0 : all a. () -> ()\np0 x = x\n"
    )?;
    for i in 0..last {
        let next = i + 1;
        write!(
            text,
            "p{next} : all a. () -> ()\np{next} x = let y = p{i}[#{{l : a}}] x in p{i}[#{{m : a}}] y\n"
        )?;
    }
    Ok(text)
}

#[test]
fn instances_are_counted(rt: HostRuntime) -> Result<(), Fail> {
    let alloc = rt.alloc();
    assert_eq!(rt; counted(&rt, alloc, NEW_AND_FREE)?, Ok(3));
    assert_eq!(rt; counted(&rt, alloc, APPEND)?, Ok(6));
    assert_eq!(rt; counted(&rt, alloc, ABSTRACT)?, Ok(2));
    assert_eq!(rt; counted(&rt, alloc, row(alloc, 11)?.as_str())?, Ok(4096));
    assert_eq!(rt;
        counted(&rt, alloc, row(alloc, 12)?.as_str())?,
        Err(Limit::Instances)
    );
    Ok(())
}

#[test]
fn each_instance_stands_once(rt: HostRuntime) -> Result<(), Fail> {
    let alloc = rt.alloc();
    let source =
        "f : U8 -> U8\nf x = g[U8] (g[U8] x)\ng : all a. a -> a\ng x = x\nh : all a. a -> a\nh x = x\n";
    let checked = checked_source(alloc, source)?;
    let list = listed(&rt, alloc, &checked)?;
    assert_eq!(rt; list.len(), 2);
    let found = at_word(alloc, Fun::User(1), Word::U8)?;
    assert_eq!(rt; list.find(&found), Some(1));
    assert_eq!(rt; list.find(&found.copy(alloc)?), Some(1));
    assert_eq!(rt; list.find(&at_word(alloc, Fun::User(1), Word::U16)?), None);
    assert_eq!(rt; list.find(&at_word(alloc, Fun::User(2), Word::U8)?), None);
    assert_eq!(rt;
        list.find(&at_word(alloc, Fun::Lib(Lib::Put), Word::U8)?),
        None
    );
    assert_eq!(rt; list.get(0).map(|one| one.fun), Some(Fun::User(0)));
    assert_eq!(rt; list.get(2).map(|one| one.fun), None);
    Ok(())
}

#[test]
fn copies_have_types_and_bodies(rt: HostRuntime) -> Result<(), Fail> {
    let alloc = rt.alloc();
    let checked = checked_source(alloc, APPEND)?;
    let list = listed(&rt, alloc, &checked)?;
    let copies = mono(alloc, &checked, &list)?;
    let kernel = kernel_in(alloc, APPEND_TYPES)?;
    assert_eq!(rt; copies.len(), 6);
    for at in 0..6u32 {
        match (copies.ty(at), kernel.funs.get(at as usize)) {
            (Some(ty), Some(function)) => assert!(rt; same(ty, &function.ty.ty)),
            _ => panic!(rt; "no such copy"),
        }
        assert_eq!(rt; copies.body(at).is_some(), at < 3);
    }
    assert_eq!(rt;
        copies.instance(5).map(|one| one.fun),
        Some(Fun::Lib(Lib::Put))
    );
    assert!(rt; copies.ty(6).is_none());
    Ok(())
}

#[test]
fn a_copy_is_at_its_types(rt: HostRuntime) -> Result<(), Fail> {
    let alloc = rt.alloc();
    let source = "f : U8 -> U8\nf x = g[U8] x\ng : all a. a -> a\ng x = x\n";
    let checked = checked_source(alloc, source)?;
    let copies = mono(alloc, &checked, &listed(&rt, alloc, &checked)?)?;
    match copies.body(1).map(|body| &body.note.ty) {
        Some(ty) => assert!(rt; matches!(ty, Ty::Word(Word::U8))),
        None => panic!(rt; "no body"),
    }
    Ok(())
}
