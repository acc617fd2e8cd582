// What a run of C gave.
use cg_base::Items;
use cg_value::Value;

/// What a run of C gave: the value that its result represents, its steps, the addresses of the cells that it made and freed, and of those that
/// may be written through its result.
#[derive(Drop)]
pub struct Machined {
    pub value: Value,
    pub steps: u64,
    pub made: Items<u64>,
    pub freed: Items<u64>,
    pub kept: Items<u64>,
}
