// Places in a source.
ghost use Rattle.std.specs.Prelude.{◌≡◌};
ghost use Rattle.cg_base.specs.Places.{place_past, place_after};

/// A place in a source. Lines and columns count from 1, and a column is a byte.
#[derive(Clone, Copy, Debug, PartialEq, Eq)]
pub struct Place {
    pub line: u32,
    pub column: u32,
}

/// The place behind a byte.
fn behind_byte(place: Place, byte: u8) -> Place
    ensures { result ≡ place_past place byte }
{
    if byte == b'\n' {
        Place {
            line: place.line.saturating_add(1),
            column: 1,
        }
    } else {
        Place {
            line: place.line,
            column: place.column.saturating_add(1),
        }
    }
}

impl Place {
    /// The place behind some bytes that begin here. A line or column above 2^32 - 1 is given as 2^32 - 1 (docs/LANGUAGE.md,
    /// "Tokens").
    pub fn behind(self, bytes: &[u8]) -> Place
        ensures { result ≡ place_after self bytes.now }
    {
        let mut place = self;
        for byte in bytes {
            place = behind_byte(place, *byte);
        }
        place
    }
}
