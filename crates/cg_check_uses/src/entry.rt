// What a part of a body does with a variable.
use cg_base::Place;

/// What a part of a body does with a variable: it touches it, by a use or by a sighting; it uses it; and the first observer of it behind
/// which it isn't used, if there is one (docs/LANGUAGE.md, "Typing").
#[derive(Clone, Copy, Debug, PartialEq, Eq)]
pub struct Use {
    pub touched: bool,
    pub used: bool,
    pub bad: Option<Place>,
}
