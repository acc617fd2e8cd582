// Keys of instances, each once.
ghost use Rattle.std.specs.Prelude.{◌≡◌, [], length, None, Some, slice_get, IfSome, IfNone, OnErr, OnOk};
ghost use Rattle.cg_inst.specs.Lookups.{with_key};

use cg_base::{Fun, Memory};
use indexmap::IndexSet;
use std::alloc::Global;
use std::marker::Model;

/// An instance: its function, and the place of its types, which stand in a table as one list.
#[derive(Clone, Copy, PartialEq, Eq, Hash)]
pub(crate) struct Key {
    pub(crate) fun: Fun,
    pub(crate) types: u32,
}

/// Keys in the order in which they came, each of which stands in it once.
#[derive(Drop)]
pub(crate) struct Keys {
    keys: IndexSet<Key>,
}

impl Model for Keys {
    ghost use Rattle.std.specs.Prelude.{List};
    ghost use Rattle.cg_inst.specs.declared.keys.Key.{Key as OneKey};

    ghost Value = { List OneKey };

    ghost view = { λ k. k.keys.keys };
}

impl Keys {
    /// It holds no key.
    pub(crate) fn new(alloc: Global) -> Keys
        ensures { result ≡ [] }
    {
        Keys {
            keys: IndexSet::new(alloc),
        }
    }

    /// How many there are.
    pub(crate) fn len(&self) -> usize
        ensures { result ≡ length self.now }
    {
        self.keys.len()
    }

    /// The key at a place.
    pub(crate) fn get(&self, at: usize) -> Option<Key>
        ensures found { IfSome result (λ key. slice_get self.now at ≡ Some key) }
        ensures absent { IfNone result (slice_get self.now at ≡ None) }
    {
        self.keys.get_index(at).copied()
    }

    /// One more key at the end, if it isn't there.
    pub(crate) fn enter(&mut self, key: Key) -> Result<(), Memory>
        ensures ok { OnOk result (self.new ≡ with_key self.old key) }
        ensures err { OnErr result (self.new ≡ self.old) }
    {
        self.keys.insert(key)?;
        Ok(())
    }
}
