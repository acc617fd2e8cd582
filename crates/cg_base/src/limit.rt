// What is limited.

/// A limit: what it counts is said in docs/LANGUAGE.md, "Limits".
#[derive(Clone, Copy, Debug, PartialEq, Eq)]
pub enum Limit {
    Source,
    Nesting,
    Functions,
    Fields,
    Ty,
    Depth,
    Instances,
    Core,
    Heap,
    Certificate,
}
