// Runs of words.
use cg_heap::Form;

// Where a cell's words stand: so many from a place on. A cell of no words starts at 0.
#[derive(Clone, Copy)]
pub struct Span {
    pub form: Form,
    pub start: usize,
    pub count: usize,
}

// Words that no cell has: so many from a place on.
#[derive(Clone, Copy)]
pub struct Hole {
    pub start: usize,
    pub count: usize,
}
