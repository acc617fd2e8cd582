// Holes: words that no cell has.
ghost use Rattle.std.specs.Prelude.{◌≡◌, ◌≢◌, ◌+◌, ◌-◌, ◌<◌, ◌≤◌, ◌^◌, All, IfNone, IfSome, length, nat_le, nat_lt, position, slice_index_or, true, false};
ghost use Rattle.std.specs.List.Sorted.{IsPartitionPoint, IsPartitionedBy};
ghost use Rattle.std.specs.Vec.{vec_capacity};
ghost use Rattle.cg_flat.specs.Around.{AreAround};
ghost use Rattle.cg_flat.specs.Flat.{AreApart, first_filled, with_hole};

use crate::span::Hole;

// The index of the first hole that has room for so many words; None where there is none.
pub(crate) fn first_with_room(holes: &[Hole], count: usize) -> Option<usize>
    ensures { result ≡ position (λ h. nat_le count h.count) holes.now }
{
    holes.iter().position(|hole| count <= hole.count)
}

// Takes so many words off the front of the first hole that has room for them.
pub(crate) fn take_front(holes: &mut Vec<Hole>, index: usize, count: usize)
    requires first { position (λ h. nat_le count h.count) holes.old.items ≡ Some index }
    requires within { All (λ h. h.start + h.count < 2 ^ 64) holes.old.items }
    ensures holes { holes.new.items ≡ first_filled count holes.old.items }
    ensures shorter { length holes.new.items ≤ length holes.old.items }
    ensures capacity { vec_capacity holes.new ≡ vec_capacity holes.old }
{
    let hole = holes[index];
    if hole.count == count {
        let _whole = holes.remove(index);
    } else {
        holes[index] = Hole {
            start: hole.start + count,
            count: hole.count - count,
        };
    }
}

// Puts in one more hole, which becomes one with those that it touches. There is room for it, so it takes no memory.
pub(crate) fn give_back(holes: &mut Vec<Hole>, hole: Hole)
    requires room { length holes.old.items < vec_capacity holes.old }
    requires some { 1 ≤ hole.count }
    requires apart { AreApart 0 holes.old.items }
    requires around { AreAround hole holes.old.items }
    requires within { All (λ h. h.start + h.count < 2 ^ 63) holes.old.items }
    requires small { hole.start + hole.count < 2 ^ 63 }
    ensures holes { holes.new.items ≡ with_hole hole holes.old.items }
    ensures longer { length holes.new.items ≤ length holes.old.items + 1 }
    ensures capacity { vec_capacity holes.old ≤ vec_capacity holes.new }
{
    let index = first_from(holes.as_slice(), hole.start);
    let before = touching_before(holes.as_slice(), index, hole.start);
    let behind = touching_behind(holes.as_slice(), index, hole.start + hole.count);
    match (before, behind) {
        (Some(first), Some(last)) => {
            let _last = holes.remove(index);
            holes[index - 1] = Hole {
                start: first.start,
                count: first.count + hole.count + last.count,
            };
        }
        (Some(first), None) => {
            holes[index - 1] = Hole {
                start: first.start,
                count: first.count + hole.count,
            };
        }
        (None, Some(last)) => {
            holes[index] = Hole {
                start: hole.start,
                count: hole.count + last.count,
            };
        }
        (None, None) => {
            let _there_is_room = holes.insert(index, hole);
        }
    }
}

// The index of the first hole that doesn't start before a place.
fn first_from(holes: &[Hole], place: usize) -> usize
    requires { IsPartitionedBy (λ h. nat_lt h.start place) holes.now }
    ensures within { result ≤ length holes.now }
    ensures parts { IsPartitionPoint (λ h. nat_lt h.start place ≡ true) (λ h. nat_lt h.start place ≡ false) holes.now result }
{
    holes.partition_point(|hole| hole.start < place)
}

// The hole before an index, where it ends at a place.
fn touching_before(holes: &[Hole], index: usize, place: usize) -> Option<Hole>
    requires index { index ≤ length holes.now }
    requires within { All (λ h. h.start + h.count < 2 ^ 63) holes.now }
    ensures some { IfSome result (λ h. (1 ≤ index) × (h.start + h.count ≡ place) × ((d : Hole) → slice_index_or holes.now (index - 1) d ≡ h)) }
    ensures none { IfNone result ((d : Hole) → 1 ≤ index → (slice_index_or holes.now (index - 1) d).start + (slice_index_or holes.now (index - 1) d).count ≢ place) }
{
    if index == 0 {
        return None;
    }
    let hole = holes[index - 1];
    if hole.start + hole.count == place {
        Some(hole)
    } else {
        None
    }
}

// The hole at an index, where it starts at a place.
fn touching_behind(holes: &[Hole], index: usize, place: usize) -> Option<Hole>
    ensures some { IfSome result (λ h. (index < length holes.now) × (h.start ≡ place) × ((d : Hole) → slice_index_or holes.now index d ≡ h)) }
    ensures none { IfNone result ((d : Hole) → index < length holes.now → (slice_index_or holes.now index d).start ≢ place) }
{
    if index >= holes.len() {
        return None;
    }
    let hole = holes[index];
    if hole.start == place {
        Some(hole)
    } else {
        None
    }
}
