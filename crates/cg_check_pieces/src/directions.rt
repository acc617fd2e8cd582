// Directions of operands, and of the fields of a record.
ghost use Rattle.std.specs.Prelude.{◌≡◌, map};
ghost use Rattle.std.specs.Option.{option_copied};
ghost use Rattle.cg_base.specs.Types.{type_of};
ghost use Rattle.cg_check_pieces.specs.Directions.{guided_direction as guided_direction_of, is_by_right as is_by_right_of, may_be_made_of as may_be_made_of_way};
ghost use Rattle.cg_check_pieces.specs.View.{way_of};
ghost use Rattle.cg_core.specs.Kernels.{the_field};
ghost use Rattle.cg_core.specs.Terms.{to_named};
ghost use Rattle.cg_typing_parts.specs.Views.{the_sort};

use cg_base::{Items, Place, Ty};
use cg_core::FieldTerm;
use cg_typing_parts::{Sort, is_made_of};

/// The direction of an operand whose guide has this type, or of one of arithmetic that is checked.
pub fn guided_direction<'a>(direction: Option<&'a Ty>, sort: Sort, guide: &'a Ty) -> Option<&'a Ty>
    ensures { way_of (option_copied result) ≡ guided_direction_of (the_sort sort) (way_of (option_copied direction.entry)) (type_of guide.now) }
{
    match (sort, direction) {
        (Sort::Arithmetic, Some(wanted)) => Some(wanted),
        _ => Some(guide),
    }
}

/// Whether the right operand is checked first, where the left one is a literal or not.
pub fn is_by_right(direction: Option<&Ty>, sort: Sort, literal: bool) -> bool
    ensures { result ≡ is_by_right_of (the_sort sort) (way_of (option_copied direction.entry)) literal }
{
    match sort {
        Sort::Logic => false,
        Sort::Arithmetic => direction.is_none() && literal,
        Sort::Equality | Sort::Order => literal,
    }
}

/// Whether fields are those of the type that is checked against, if any.
pub fn may_be_made_of(direction: Option<&Ty>, fields: &Items<FieldTerm<Place>>) -> bool
    ensures { result ≡ may_be_made_of_way (way_of (option_copied direction.entry)) (to_named (map the_field fields.now)) }
{
    match direction {
        Some(wanted) => is_made_of(wanted, fields),
        None => true,
    }
}
