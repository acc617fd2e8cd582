// A source, and its certificate.

/// A record in a cell, of which one field is taken and put back.
pub(crate) const BUMP: &str = "type Cell = {val : U32, tag : U8}
bump : Cell -> Cell
bump c = let c' {val = v} = c in c' {val = v + 1}
";

/// Its certificate.
pub(crate) const BUMP_CERTIFICATE: &str = "cogent certificate 1
fun bump
take L
var
put -LR
var
op --L
var
lit
end
";
