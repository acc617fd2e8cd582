// Names, each once.
ghost use Rattle.std.specs.Prelude.{◌≡◌, ◌^◌, ◌≤◌, [], length, slice_get, IfOk, IfSome, IfNone, OnErr};
ghost use Rattle.cg_inst_types.specs.Places.{Keeps, IsOnce, Locates, name_at};

use cg_base::Memory;
use indexmap::IndexSet;
use std::alloc::Global;
use std::marker::Model;

// Names by their places, which contracts see as the list of their bytes. Each name stands in it once.
#[derive(Drop)]
pub(crate) struct Names {
    names: IndexSet<Vec<u8>>,
}

impl Model for Names {
    ghost use Rattle.std.specs.Prelude.{List, ℕ, ◌≤◌, map, length};

    ghost Value = { List (List ℕ) };

    ghost view = { λ n. map (λ bytes. bytes.items) n.names.keys };

    ghost invariant = { λ n. length n.names.keys ≤ 4294967295 };
}

impl Names {
    // It holds no name.
    pub(crate) fn new(alloc: Global) -> Names
        ensures { result ≡ [] }
    {
        Names {
            names: IndexSet::new(alloc),
        }
    }

    // The bytes of the name at a place, or none where there is no such place.
    pub(crate) fn bytes(&self, at: u32) -> &[u8]
        ensures { result.now ≡ name_at self.now at }
    {
        match self.names.get_index(at as usize) {
            Some(bytes) => bytes.as_slice(),
            None => &[],
        }
    }

    // The place of a name, if it is there.
    pub(crate) fn find(&self, bytes: &[u8]) -> Option<u32>
        ensures { Locates self.now bytes.now result }
    {
        match self.names.get_index_of(bytes) {
            Some(at) => Some(at as u32),
            None => None,
        }
    }

    // The place of a name, entered where it isn't there.
    pub(crate) fn enter(&mut self, alloc: Global, bytes: &[u8]) -> Result<u32, Memory>
        ensures place { IfOk result (λ at. slice_get self.new at ≡ Some bytes.now) }
        ensures kept { Keeps self.old self.new }
        ensures once { IsOnce self.old → IsOnce self.new }
    {
        if let Some(at) = self.find(bytes) {
            return Ok(at);
        }
        let at = self.names.len();
        if at >= u32::MAX as usize {
            return Err(Memory);
        }
        self.names.insert(copied(alloc, bytes)?)?;
        Ok(at as u32)
    }
}

fn copied(alloc: Global, bytes: &[u8]) -> Result<Vec<u8>, Memory>
    ensures { IfOk result (λ copy. copy.items ≡ bytes.now) }
{
    Ok(bytes.to_vec(alloc)?)
}
