// The names of the components of a tuple.
ghost use Rattle.std.specs.Prelude.{◌≡◌};
ghost use Rattle.std.specs.List.{list_all};
ghost use Rattle.cg_base.specs.Bytes.{digit};
ghost use Rattle.cg_base.specs.Numbers.{literal_of};
ghost use Rattle.cg_resolve_takes.specs.Heads.{component_names};
ghost use Rattle.cg_resolve_takes.specs.Components.{is_position, is_numbered, counts_to};
ghost use Rattle.cg_resolve_def.specs.Declared.{is_among};

use cg_base::{is_digit, literal};

/// Whether a name is that of a component of a tuple of so many: `p1`, `p2` and so on (docs/LANGUAGE.md, "Types"). It takes no memory.
pub fn is_component(name: &[u8], count: usize) -> bool
    ensures { result ≡ is_among (component_names count) name.now }
{
    is_numbered(name, count)
}

// Whether a name is a `p` with a number behind it that is at most so large.
fn is_numbered(name: &[u8], most: usize) -> bool
    ensures { result ≡ is_numbered most name.now }
{
    match name {
        [] => false,
        [first, digits @ ..] => *first == b'p' && is_position(digits, most),
    }
}

// Whether digits, with no zero in front, spell a number that is at most so large.
fn is_position(digits: &[u8], most: usize) -> bool
    ensures { result ≡ is_position most digits.now }
{
    match digits {
        [] => false,
        [first, ..] => *first != b'0' && all_digits(digits) && counts_to(digits, most),
    }
}

fn all_digits(bytes: &[u8]) -> bool
    ensures { result ≡ list_all digit bytes.now }
{
    bytes.iter().all(|byte| is_digit(*byte))
}

fn counts_to(digits: &[u8], most: usize) -> bool
    ensures { result ≡ counts_to most (literal_of digits.now) }
{
    match literal(digits) {
        None => false,
        Some(number) => number <= most as u64,
    }
}
