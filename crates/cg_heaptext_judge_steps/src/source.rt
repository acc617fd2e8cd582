// What a value is read from.
use cg_heaptext_entries::Index;
use cg_heaptext_index::Addresses;
use std::alloc::Global;

/// A heap file whose cells are read where a value mentions them: its entries, and their positions by their addresses.
#[derive(Clone, Copy)]
pub struct Source<'r, 'a> {
    pub alloc: Global,
    pub index: &'r Index<'a>,
    pub addresses: &'r Addresses<'a>,
}
