// C texts that `build` writes, run by `text_run` on the heaps of the worked rows: they give what `run` prints.
ghost use Rattle.std.specs.Prelude.{IfOk, map};
ghost use Rattle.cg_heaptext_contents.specs.Placings.{pair_of};
ghost use Rattle.cg_heaptext_def.specs.Placed.{CanBePlaced};

use crate::sources::BUMP;
use cg_base::{Name, Place, Ty};
use cg_check_tests::checked_source;
use cg_core::KFun;
use cg_driver::{Status, TextFault, cogent, text_run};
use cg_heap::Scalar;
use cg_heaptext::{Start, read_heap};
use cg_outside::{MemoryFiles, MemorySink};
use cg_typing_parts::is_small_enough;
use std::alloc::Global;
use std::process::Abort;
use std::test::Fail;

/// A worked row: a source, the name of its entry with its position and the name of its C function, a heap file, and the cost.
struct Row<'a> {
    source: &'a str,
    entry: &'a str,
    position: usize,
    function: &'a [u8],
    heap: &'a str,
    cost: u64,
}

/// A record in a cell whose value wraps.
const BUMPED: Row<'static> = Row {
    source: BUMP,
    entry: "bump",
    position: 0,
    function: b"f0",
    heap: "@5 = {val = 4294967295, tag = 7}\narg = @5\n",
    cost: 8,
};

/// A cell that is made and freed.
const FREED: Row<'static> = Row {
    source: "type R = {x : U32}
f : SysState -> SysState
f s = let (s, r) = new[R] s in r
  | None -> s
  | Some p -> free[R] (s, p)
",
    entry: "f",
    position: 0,
    function: b"f0",
    heap: "@1 = <1>\narg = @1\n",
    cost: 18,
};

/// A byte that is put behind those of a buffer.
const APPENDED: Row<'static> = Row {
    source: "type Super = {magic : U32, used : U32, buf : WordArray U8}
type Err = <BadMagic U32 | Full>
type Res = (Super, <Error Err | Success U32>)

sumf : #{elem : U8, acc : U32, obsv : ()!} -> U32
sumf r = r.acc + upcast r.elem

total : Super! -> U32
total s = wordarray_fold[U8, U32, ()] #{arr = s.buf, frm = 0,
  to = wordarray_length[U8] (s.buf), f = sumf, acc = 0, obsv = ()}

append : (Super, U8) -> Res
append (s, b) = if s.magic /= 4096 !s
  then let m = s.magic !s in (s, Error (BadMagic m))
  else let n = wordarray_length[U8] (s.buf) !s
       and u = s.used !s
       in if u >= n
          then (s, Error Full)
          else let s1 {buf = w, used = k} = s
               and w = wordarray_put[U8] (w, k, b)
               and s2 = s1 {buf = w, used = k + 1}
               and t = total s2 !s2
               in (s2, Success t)
",
    entry: "append",
    position: 2,
    function: b"f2",
    heap: "@1 = {magic = 4096, used = 1, buf = @2}\n@2 = [5, 0, 0, 0]\narg = (@1, 7)\n",
    cost: 105,
};

/// The words of a command.
fn words_of(alloc: Global, texts: &[&str]) -> Result<Vec<String>, Fail> {
    let mut words = Vec::new(alloc);
    for text in texts {
        words.push(String::from_str(alloc, text)?)?;
    }
    Ok(words)
}

/// Files in memory that hold the source and the heap of a row.
fn files_of(alloc: Global, row: &Row<'_>) -> Result<MemoryFiles, Fail> {
    let mut files = Vec::new(alloc);
    files.push((
        Name::new(alloc, b"a.cg")?,
        row.source.as_bytes().to_vec(alloc)?,
    ))?;
    files.push((Name::new(alloc, b"h")?, row.heap.as_bytes().to_vec(alloc)?))?;
    Ok(MemoryFiles::new(alloc, files, Vec::new(alloc)))
}

/// The C text that `build` writes of a row's source.
fn text_of(rt: &impl Abort, alloc: Global, row: &Row<'_>) -> Result<Vec<u8>, Fail> {
    let mut files = files_of(alloc, row)?;
    let mut out = MemorySink::new(alloc, Vec::new(alloc));
    let words = words_of(alloc, &["build", "a.cg", "a.c", "a.cert"])?;
    let status = cogent(alloc, &words, &mut files, &mut out);
    assert_eq!(rt; status, Status::Done);
    match files.contents("a.c") {
        Some(text) => Ok(text.to_vec(alloc)?),
        None => panic!(rt; "no text"),
    }
}

/// What `run` prints of a row.
fn printed_of(rt: &impl Abort, alloc: Global, row: &Row<'_>) -> Result<Vec<u8>, Fail> {
    let mut files = files_of(alloc, row)?;
    let mut out = MemorySink::new(alloc, Vec::new(alloc));
    let words = words_of(alloc, &["run", "a.cg", row.entry, "h"])?;
    let status = cogent(alloc, &words, &mut files, &mut out);
    assert_eq!(rt; status, Status::Done);
    Ok(out.bytes().to_vec(alloc)?)
}

/// What a function takes.
fn argument_type(function: &KFun) -> &Ty {
    match &function.ty.ty {
        Ty::Arrow(takes, _) => takes,
        ty => ty,
    }
}

/// What the heap text of a row holds at the type of the entry's argument.
fn start_of(rt: &impl Abort, alloc: Global, row: &Row<'_>) -> Result<Start, Fail>
    ensures { IfOk result (λ start. CanBePlaced (map pair_of start.cells)) }
{
    let checked = match checked_source(alloc, row.source) {
        Ok(checked) => checked,
        Err(_) => panic!(rt; "refused"),
    };
    let Some(function) = checked.kernel().funs.get(row.position) else {
        panic!(rt; "no entry");
    };
    let (bytes, ty) = (row.heap.as_bytes(), argument_type(function));
    assert!(rt; bytes.len() <= 16_777_216 && is_small_enough(ty));
    match read_heap(alloc, bytes, ty) {
        Ok(start) => Ok(start),
        Err(_) => panic!(rt; "no heap"),
    }
}

/// Whether a text holds a piece.
fn holds(text: &[u8], piece: &[u8]) -> bool {
    (0..text.len()).any(|at| text[at..].starts_with(piece))
}

/// Runs the text that `build` writes of a row, and compares the steps, and how many cells are made and freed, with what `run` prints.
fn runs_as_printed(rt: &impl Abort, alloc: Global, row: &Row<'_>) -> Result<(), Fail> {
    let text = text_of(rt, alloc, row)?;
    let printed = printed_of(rt, alloc, row)?;
    let start = start_of(rt, alloc, row)?;
    let function = Name::new(alloc, row.function)?;
    let cost = row.cost;
    assert!(rt; cost <= 1_000_000);
    let ran = match text_run(alloc, &text, &function, start, 32 * cost + 32) {
        Ok((ran, _)) => ran,
        Err(_) => panic!(rt; "no run"),
    };
    let steps = ran.steps;
    let (made, freed) = (ran.made.len(), ran.freed.len());
    let lines = format!(in alloc; "\ncost: {cost}\nsteps: {steps}\nnew: {made}\nfreed: {freed}\n")?;
    assert!(rt; holds(&printed, lines.as_bytes()));
    Ok(())
}

#[test]
fn text_of_build(rt: HostRuntime) -> Result<(), Fail> {
    let alloc = rt.alloc();
    runs_as_printed(&rt, alloc, &BUMPED)?;
    runs_as_printed(&rt, alloc, &FREED)?;
    runs_as_printed(&rt, alloc, &APPENDED)
}

/// A C text that adds one to a value.
const ADDS: &str = "#include <stdint.h>
#include \"cogent.h\"
struct s0 { uint32_t m0; uint8_t m1; };
struct s0 *f0(struct s0 *a0) {
  uint32_t x0;
  x0 = a0->m0;
  x0 = (uint32_t)((uint32_t)x0 + (uint32_t)1ull);
  a0->m0 = x0;
  return a0;
}
";

#[test]
fn a_text_is_run(rt: HostRuntime) -> Result<(), Fail> {
    let alloc = rt.alloc();
    let function = Name::new(alloc, b"f0")?;
    let text = ADDS.as_bytes();
    let four = text_run(alloc, text, &function, start_of(&rt, alloc, &BUMPED)?, 4);
    match four {
        Ok((ran, _)) => {
            assert!(rt; matches!(ran.value.as_slice(), [Scalar::Address(5)]));
            assert_eq!(rt; ran.steps, 4);
            assert!(rt; ran.made.as_slice().is_empty() && ran.freed.as_slice().is_empty());
        }
        Err(_) => panic!(rt; "no run"),
    }
    let three = text_run(alloc, text, &function, start_of(&rt, alloc, &BUMPED)?, 3);
    assert!(rt; matches!(three, Err(TextFault::Budget)));
    let (cut, _) = text.split_at(text.len() - 2);
    let refused = text_run(alloc, cut, &function, start_of(&rt, alloc, &BUMPED)?, 4);
    let place = Place {
        line: 10,
        column: 1,
    };
    assert!(rt; matches!(refused, Err(TextFault::Text(at)) if at == place));
    Ok(())
}
