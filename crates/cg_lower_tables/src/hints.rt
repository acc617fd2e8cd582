// Hints to where instances and types first stand.
#![tactic(auto, using(crate::proofs::HintSteps::hint_steps))]

ghost use Rattle.std.specs.Prelude.{◌≡◌, ◌⊎◌, ◌<◌, ◌≤◌, ◌++◌, [], ◌∷◌, ℕ, Some, length, map, nat_eq, unwrap_or, OnErr, OnOk};
ghost use Rattle.cg_base.specs.Types.{type_of};
ghost use Rattle.cg_lower_tables.specs.declared.keys.Key.{Key as OneKey};
ghost use Rattle.cg_lower_tables.specs.Found.{with_arrow};
ghost use Rattle.cg_lower_tables.specs.Hints.{hint_of, IsHint, IsKeyOf, IsPlaceOf, KeepsHints, same_key};
ghost use Rattle.cg_inst.specs.Views.{instance_of};
ghost use Rattle.cg_lower_def.specs.Lowered.{arrow_number};
ghost use Rattle.cg_update.specs.Updates.{place_of};

use crate::keys::Key;
use crate::walks::{first_arrow, first_place, put_instance, put_type};
use cg_base::{Items, Memory, Ty};
use cg_inst::Instance;
use cg_kinds::same;
use indexmap::IndexMap;
use std::alloc::Global;

// The most instances, and the most arrow types.
const MOST: usize = 4_294_967_296;

// What is kept for the key of an instance.
pub(crate) fn place_hint(places: &IndexMap<Key, u32>, key: Key) -> Option<u32>
    ensures { result ≡ hint_of same_key places.now.entries key }
{
    places.get(&key).copied()
}

// What is kept for the key of a type.
pub(crate) fn number_hint(numbers: &IndexMap<u32, u32>, key: u32) -> Option<u32>
    ensures { result ≡ hint_of nat_eq numbers.now.entries key }
{
    numbers.get(&key).copied()
}

// Keeps a place for the key of an instance, if there is none; want of memory also where the place is past the last.
fn note_place(places: &mut IndexMap<Key, u32>, key: Key, at: usize) -> Result<(), Memory>
    ensures kept { (q : OneKey) (j : ℕ) → hint_of same_key places.old.entries q ≡ Some j → hint_of same_key places.new.entries q ≡ Some j }
    ensures low { (q : OneKey) (j : ℕ) → hint_of same_key places.new.entries q ≡ Some j → (hint_of same_key places.old.entries q ≡ Some j) ⊎ (j ≡ at) }
    ensures room { OnOk result (at < 4294967296) }
    ensures held { OnOk result ((j : ℕ) × (hint_of same_key places.new.entries key ≡ Some j)) }
{
    if at >= MOST {
        return Err(Memory);
    }
    if place_hint(places, key).is_some() {
        return Ok(());
    }
    places.insert(key, at as u32)?;
    Ok(())
}

// Keeps a place for the key of a type, if there is none; want of memory also where the place is past the last.
fn note_number(numbers: &mut IndexMap<u32, u32>, key: u32, at: usize) -> Result<(), Memory>
    ensures kept { (q : ℕ) (j : ℕ) → hint_of nat_eq numbers.old.entries q ≡ Some j → hint_of nat_eq numbers.new.entries q ≡ Some j }
    ensures low { (q : ℕ) (j : ℕ) → hint_of nat_eq numbers.new.entries q ≡ Some j → (hint_of nat_eq numbers.old.entries q ≡ Some j) ⊎ (j ≡ at) }
    ensures room { OnOk result (at < 4294967296) }
    ensures held { OnOk result ((j : ℕ) × (hint_of nat_eq numbers.new.entries key ≡ Some j)) }
{
    if at >= MOST {
        return Err(Memory);
    }
    if number_hint(numbers, key).is_some() {
        return Ok(());
    }
    numbers.insert(key, at as u32)?;
    Ok(())
}

// One instance more at the end of a list, of a key.
pub(crate) fn list_more(
    alloc: Global,
    list: &mut Items<Instance>,
    places: &mut IndexMap<Key, u32>,
    key: Key,
    instance: &Instance,
) -> Result<(), Memory>
    ensures ok { OnOk result (map instance_of list.new ≡ map instance_of list.old ++ instance_of instance.now ∷ []) }
    ensures err { OnErr result (map instance_of list.new ≡ map instance_of list.old) }
    ensures few { length (map instance_of list.old) ≤ 4294967296 → length (map instance_of list.new) ≤ 4294967296 }
    ensures hints { KeepsHints (λ types. IsKeyOf types) same_key key (instance_of instance.now) (map instance_of list.old) places.old.entries (map instance_of list.new) places.new.entries }
{
    note_place(places, key, list.len())?;
    put_instance(alloc, list, instance)
}

// One type more at the end of others, of a key, if it isn't among them.
pub(crate) fn arrows_more(
    alloc: Global,
    arrows: &mut Items<Ty>,
    numbers: &mut IndexMap<u32, u32>,
    key: u32,
    ty: &Ty,
) -> Result<(), Memory>
    requires { IsHint (map type_of arrows.old) (type_of ty.now) (hint_of nat_eq numbers.old.entries key) }
    ensures ok { OnOk result (map type_of arrows.new ≡ with_arrow (map type_of arrows.old) (type_of ty.now)) }
    ensures err { OnErr result (map type_of arrows.new ≡ map type_of arrows.old) }
    ensures few { length (map type_of arrows.old) ≤ 4294967296 → length (map type_of arrows.new) ≤ 4294967296 }
    ensures hints { KeepsHints (λ types. IsPlaceOf types) nat_eq key (type_of ty.now) (map type_of arrows.old) numbers.old.entries (map type_of arrows.new) numbers.new.entries }
{
    let at = arrows.len();
    if hinted_number(arrows.as_slice(), number_hint(numbers, key), ty) < at {
        return Ok(());
    }
    note_number(numbers, key, at)?;
    put_type(alloc, arrows, ty)
}

// Where an instance first stands in a list, by a hint; 0, where it does not. All are gone through where another one of its key is the first,
// which is only where there are type variables.
pub(crate) fn hinted_place(list: &[Instance], hint: Option<u32>, instance: &Instance) -> usize
    requires { IsHint (map instance_of list.now) (instance_of instance.now) hint }
    ensures { result ≡ unwrap_or (place_of (instance_of instance.now) (map instance_of list.now)) 0 }
{
    match hint {
        Some(at) => match list.get(at as usize) {
            Some(other) if other.same(instance) => at as usize,
            _ => first_place(list, instance),
        },
        None => 0,
    }
}

// Where a type first stands among others, by a hint; past their end, where it does not. As in [`hinted_place`], all are gone through only
// where there are type variables.
pub(crate) fn hinted_number(arrows: &[Ty], hint: Option<u32>, ty: &Ty) -> usize
    requires { IsHint (map type_of arrows.now) (type_of ty.now) hint }
    ensures { result ≡ arrow_number (map type_of arrows.now) (type_of ty.now) }
{
    match hint {
        Some(at) => match arrows.get(at as usize) {
            Some(other) if same(other, ty) => at as usize,
            _ => first_arrow(arrows, ty),
        },
        None => arrows.len(),
    }
}
