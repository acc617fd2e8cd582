// Kinds of bytes.
ghost use Rattle.std.specs.Prelude.{◌≡◌};
ghost use Rattle.cg_base.specs.Bytes.{white, digit};

/// Whether a byte is white space: space, tab, line feed or carriage return (docs/LANGUAGE.md, "Tokens").
pub fn is_white(byte: u8) -> bool
    ensures { result ≡ white byte }
{
    byte == b' ' || byte == b'\t' || byte == b'\n' || byte == b'\r'
}

/// Whether a byte is a decimal digit (docs/LANGUAGE.md, "Tokens").
pub fn is_digit(byte: u8) -> bool
    ensures { result ≡ digit byte }
{
    byte.is_ascii_digit()
}
