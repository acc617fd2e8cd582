// The earliest of places that come one by one.
ghost use Rattle.std.specs.Prelude.{◌≡◌};
ghost use Rattle.cg_heaptext_places.specs.Noted.{is_before as stands_before, joined, noted};

use cg_base::Place;

// Whether a place stands before another in a file.
fn is_before(place: Place, other: Place) -> bool
    ensures { result ≡ stands_before place other }
{
    place.line < other.line || (place.line == other.line && place.column < other.column)
}

/// The earlier of the earliest place that was found before, where there is one, and another place (docs/LANGUAGE.md, "Heap files").
pub fn earlier(found: Option<Place>, place: Place) -> Option<Place>
    ensures { result ≡ noted found place }
{
    match found {
        Some(other) if !is_before(place, other) => Some(other),
        _ => Some(place),
    }
}

/// The earlier of two places that were found, where there are such.
pub fn earliest(found: Option<Place>, other: Option<Place>) -> Option<Place>
    ensures { result ≡ joined found other }
{
    match other {
        Some(place) => earlier(found, place),
        None => found,
    }
}
