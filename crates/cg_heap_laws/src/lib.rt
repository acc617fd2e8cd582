//! Stage: heaps. Which scalars represent a value, what they reach, what calls change, and the library on heaps.
//! Role: laws.
//! Promises: `values_are_one`, `footprints_suffice`, `frames_compose`, `library_does`, `steps_are_frames`.
//! May cite: definitions, laws and public crates below; no code above.
//! Promises also: `scalars_fill_slots`, `represented_fits`, `observed_is_represented`, `observed_is_read`, `frames_stand_beside`.
//! Promises also: `footprints_are_there`, `aliased_is_not_apart`, `escaping_reads_nothing`, `shared_writes_nothing`.
//! Promises also: `steps_keep_fine`, `arrays_are_there`, `answers_suffice`, `addresses_rise`, `good_arguments_suffice`.
//! Promises also: `steps_follow`, `steps_stand_beside`, `parts_are_fine`, `nothing_is_a_step`, `writes_are_steps`.
//! Promises also: `frees_are_steps`, `makes_are_steps`, `freed_is_exact`, `held_is_fine`.
#![tactic(auto)]

mod law;
mod library_law;
mod step_law;

pub use law::{
    aliased_is_not_apart, escaping_reads_nothing, footprints_are_there, footprints_suffice,
    frames_compose, frames_stand_beside, observed_is_read, observed_is_represented,
    represented_fits, scalars_fill_slots, shared_writes_nothing, values_are_one,
};
pub use library_law::{
    addresses_rise, answers_suffice, arrays_are_there, good_arguments_suffice, library_does,
    steps_are_frames, steps_keep_fine,
};
pub use step_law::{
    freed_is_exact, frees_are_steps, held_is_fine, makes_are_steps, nothing_is_a_step,
    parts_are_fine, steps_follow, steps_stand_beside, writes_are_steps,
};
