//! Stage: heaps. Cells at addresses, the stores that hold them, and the values that they represent.
//! Role: public.
//! Promises: `MapStore` keeps the trait `Store`; `slots`, `read_out`, `reached`, exactly; the trait `ExternHeap`, of abstract functions.
//! May cite: anything of its stage and of those below; no crate above.
//! docs/LANGUAGE.md, "Layout", says what represents a value.
#![tactic(auto)]

mod cell;
mod contents;
mod foreign;
mod held;
mod layout;
mod map;
mod part;
mod reach;
mod read;
mod store;

pub use cell::{Cell, Form, Fresh, Scalar};
pub use foreign::{Called, ExternHeap, Link};
pub use layout::{slots, slots_of_parts};
pub use map::MapStore;
pub use reach::reached;
pub use read::read_out;
pub use store::Store;
