// The white space and the comments before a token.
ghost use Rattle.std.specs.Prelude.{◌≡◌};
ghost use Rattle.cg_cread_lexer.specs.Front.{inside_length, piece_length, IsGap};

use cg_base::is_white;

/// How many bytes stand before the next `*/`; all of them where there is none.
fn inside_len(bytes: &[u8]) -> usize
    ensures { result ≡ inside_length bytes.now }
{
    for i in 0..bytes.len() {
        if bytes[i..].starts_with(b"*/") {
            return i;
        }
    }
    bytes.len()
}

/// How many bytes the white space or the comment at the front has; 0 where neither stands there. A comment has four more
/// than its inside.
fn piece_len(bytes: &[u8]) -> usize
    ensures { result ≡ piece_length bytes.now }
{
    match bytes {
        [first, ..] if is_white(*first) => 1,
        [b'/', b'*', inside @ ..] => {
            let len = inside_len(inside);
            if len < inside.len() { len + 4 } else { 0 }
        }
        _ => 0,
    }
}

/// How many bytes of white space and comments stand in front. A comment that isn't closed is none of them.
pub(crate) fn gap_len(bytes: &[u8]) -> usize
    ensures { IsGap bytes.now result }
{
    let mut len = 0;
    loop {
        let more = piece_len(&bytes[len..]);
        if more == 0 {
            return len;
        }
        len += more;
    }
}
