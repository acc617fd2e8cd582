// The white space and the comments before a token.
ghost use Rattle.std.specs.Prelude.{◌≡◌, ◌≤◌, ◌<◌, length, MatchOption};
ghost use Rattle.cg_lexer.specs.Gaps.{opens as opens_comment, closes as closes_comment};
ghost use Rattle.cg_lexer.specs.Tokens.{is_first as is_first_behind, is_joined as is_joined_behind};
ghost use Rattle.cg_lexer.specs.Front.{closing, piece_length, IsFullGap};

use crate::bytes::line_len;
use cg_base::is_white;

/// Whether a block comment begins in front.
pub(crate) fn opens(bytes: &[u8]) -> bool
    ensures { result ≡ opens_comment bytes.now }
{
    matches!(bytes, [b'{', b'-', ..])
}

/// Whether a block comment ends in front.
fn closes(bytes: &[u8]) -> bool
    ensures { result ≡ closes_comment bytes.now }
{
    matches!(bytes, [b'-', b'}', ..])
}

/// How many bytes stand up to the end of the block comment whose inside begins here; None where it isn't closed.
fn closing_len(bytes: &[u8]) -> Option<usize>
    ensures { MatchOption result (length bytes.now < closing 0 bytes.now) (λ len. (len ≡ closing 0 bytes.now) × (len ≤ length bytes.now)) }
{
    let mut open = 0usize;
    let mut at = 0;
    while at < bytes.len() {
        let rest = &bytes[at..];
        if opens(rest) {
            open += 1;
            at += 2;
        } else if !closes(rest) {
            at += 1;
        } else if open == 0 {
            return Some(at + 2);
        } else {
            open -= 1;
            at += 2;
        }
    }
    None
}

/// How many bytes the white space or the comment at the front has; 0 where neither stands there. A block comment that isn't
/// closed is none of them.
fn piece_len(bytes: &[u8]) -> usize
    ensures value { result ≡ piece_length bytes.now }
    ensures within { result ≤ length bytes.now }
{
    match bytes {
        [first, ..] if is_white(*first) => 1,
        [b'-', b'-', text @ ..] => 2 + line_len(text),
        [b'{', b'-', inside @ ..] => closing_len(inside).map_or(0, |len| len + 2),
        _ => 0,
    }
}

/// How many bytes of white space and comments stand in front.
pub(crate) fn gap_len(bytes: &[u8]) -> usize
    ensures { IsFullGap bytes.now result }
{
    let mut len = 0;
    loop {
        let more = piece_len(&bytes[len..]);
        if more == 0 {
            return len;
        }
        len += more;
    }
}

/// Whether no token stands before what follows the gap on its line; `behind` says that a token ends before the gap.
pub(crate) fn is_first(behind: bool, gap: &[u8]) -> bool
    ensures { result ≡ is_first_behind behind gap.now }
{
    !behind || gap.contains(&b'\n')
}

/// Whether a token ends before the gap, and the gap is empty.
pub(crate) fn is_joined(behind: bool, gap: &[u8]) -> bool
    ensures { result ≡ is_joined_behind behind gap.now }
{
    behind && gap.is_empty()
}
