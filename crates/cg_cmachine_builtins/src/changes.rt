// What a run made and freed.

/// The addresses of the cells that a run made and freed, in the order of its steps.
#[derive(Drop)]
pub struct Changes {
    pub made: Vec<u64>,
    pub freed: Vec<u64>,
}
