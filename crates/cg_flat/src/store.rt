// The flat store.
ghost use Rattle.std.specs.Prelude.{◌≡◌, ℕ, ◌+◌, ◌<◌, ◌≤◌, ◌^◌, List, [], length, IfOk, IsSome, OnOk, OnErr, Some, is_some};
ghost use Rattle.std.specs.FinMap as map;
ghost use Rattle.std.specs.Borrow.{sem};
ghost use Rattle.std.specs.Option.{option_copied, option_map};
ghost use Rattle.std.specs.Ordering.{nat_cmp};
ghost use Rattle.cg_heap.specs.declared.cell.Cell.TheVariants.{Words};
ghost use Rattle.cg_heap.specs.Stored.{answer_of, asked_of, cell_at, cell_length, changed, in_place, with_cell, with_element, with_fresh, with_slot, without_answer, without_cell};
ghost use Rattle.cg_flat.specs.Flat.{added, answer_taken, element_written, elements_of, of_elements, over, placed, removed, slot_written, span_words, start_at, stored_of, words_left};

use crate::freed::free;
use crate::read::{answer_in, length_in, part, slot_in};
use crate::room::make_room;
use crate::span::{Hole, Span};
use crate::write::{
    cell_shape, clear, fresh_shape, take_answer, write_cell, write_element, write_slot,
};
use cg_base::Memory;
use cg_heap::{Cell, Form, Fresh, Scalar, Store};
use std::alloc::Global;
use std::collections::HashMap;
use std::marker::Model;

/// A store whose cells stand in one list of words, each in a span of its own; words that no cell has are holes (docs/LANGUAGE.md,
/// "Flat stores"). A cell is found and taken out by the hash of its address, in constant time on average; the hash's seed is fixed,
/// so addresses that are chosen to collide make it grow as the number of cells. To make a cell also takes time in proportion to its
/// words and to the number of holes, and puts those in order that were freed since the last was made.
#[derive(Drop)]
pub struct FlatStore {
    words: Vec<u64>,
    spans: HashMap<u64, Span>,
    holes: Vec<Hole>,
    freed: Vec<Hole>,
    top: u64,
}

impl Model for FlatStore {
    ghost use Rattle.std.specs.Coded.{codes};
    ghost use Rattle.std.specs.Vec.{vec_capacity};
    ghost use Rattle.cg_flat.specs.Flat.{Flat};
    ghost use Rattle.cg_flat.specs.Codes.{coded_flat};

    ghost Value = { Flat };

    ghost coded = { coded_flat (Prim.hlevel codes) (Prim.hlevel codes) };

    ghost use Rattle.cg_flat.specs.Settled.{settled};
    ghost use Rattle.cg_flat.specs.Seen.{IsKept, seen};

    ghost view = { λ store. seen store.words.items store.spans.entries (settled store.freed.items store.holes.items) store.top };

    ghost invariant = { λ store. IsKept store.words.items store.spans.entries store.holes.items store.freed.items (vec_capacity store.freed) store.top };
}

impl FlatStore {
    ghost use Rattle.cg_flat.specs.Lends.{lends_words};

    /// A store without a cell and without a word. It takes no memory.
    pub fn new(alloc: Global) -> FlatStore
        ensures { result ≡ record { words = []; spans = map.empty; holes = []; top = 0 } }
    {
        FlatStore {
            words: Vec::new(alloc),
            spans: HashMap::new(alloc),
            holes: Vec::new(alloc),
            freed: Vec::new(alloc),
            top: 0,
        }
    }

    /// All words, those of holes too.
    pub fn words(&self) -> &[u64]
        ensures { result.now ≡ self.now.words }
    {
        self.words.as_slice()
    }

    /// Where the words of the cell at an address stand: the place of the first, counted from 0, and how many there are; None
    /// exactly where there is no cell.
    pub fn span(&self, at: u64) -> Option<(usize, usize)>
        ensures { result ≡ option_map (λ s. (s.start, s.count)) (map.get self.now.spans at) }
    {
        match span_at(&self.spans, at) {
            Some(span) => Some((span.start, span.count)),
            None => None,
        }
    }

    /// The elements of the cell of elements at an address, lent without copying; None exactly where there is no such cell.
    pub fn elements(&self, at: u64) -> Option<&[u64]>
        ensures { option_copied result ≡ asked_of elements_of at (stored_of self.now) }
    {
        match elements_span(&self.spans, at) {
            Some(span) => Some(part(self.words.as_slice(), span)),
            None => None,
        }
    }

    /// The same to be written: what the borrower leaves in it is the cell's list, and all else is as before. There must be such a
    /// cell; `elements` tells whether there is.
    pub fn elements_mut(&mut self, at: u64) -> &mut [u64]
        requires { IsSome (asked_of elements_of at (stored_of self.old)) }
        ensures* lends { sem 𝓛 (lends_words self.entry (start_at at self.old) result) }
        ensures value { Some result.now ≡ asked_of elements_of at (stored_of self.old) }
        ensures left { (ws : List ℕ) → length ws ≡ length result.now → words_left (start_at at self.old) ws self.old ≡ over (start_at at self.old) ws self.old }
        ensures store { (ws : List ℕ) → length ws ≡ length result.now → stored_of (over (start_at at self.old) ws self.old) ≡ in_place at (Some (Words ws)) (stored_of self.old) }
    {
        let span = elements_span(&self.spans, at).unwrap();
        self.part_mut(span)
    }

    // A span's words, to be written.
    fn part_mut(&mut self, span: Span) -> &mut [u64]
        requires { span.start + span.count ≤ length self.old.words }
        ensures* lends { sem 𝓛 (lends_words self.entry span.start result) }
        ensures value { result.now ≡ span_words self.old.words span }
    {
        self.words.slice_mut(span.start..span.start + span.count)
    }
}

// The span of the cell at an address; None where there is no cell.
fn span_at(spans: &HashMap<u64, Span>, at: u64) -> Option<Span>
    ensures { result ≡ map.get (map.from_entries {R = nat_cmp} spans.now.entries) at }
{
    spans.get(&at).copied()
}

// The span of the cell of elements at an address; None where there is no such cell.
fn elements_span(spans: &HashMap<u64, Span>, at: u64) -> Option<Span>
    ensures { result ≡ of_elements (map.get (map.from_entries {R = nat_cmp} spans.now.entries) at) }
{
    match span_at(spans, at) {
        Some(span) => match span.form {
            Form::Words => Some(span),
            _ => None,
        },
        None => None,
    }
}

impl Store for FlatStore {
    ghost stored = { λ store. stored_of store };

    fn top(&self) -> u64 {
        self.top
    }

    fn len(&self, at: u64) -> Option<u32> {
        match span_at(&self.spans, at) {
            Some(span) => Some(length_in(span.form, part(self.words.as_slice(), span)) as u32),
            None => None,
        }
    }

    fn form(&self, at: u64) -> Option<Form> {
        match span_at(&self.spans, at) {
            Some(span) => Some(span.form),
            None => None,
        }
    }

    fn get(&self, at: u64, slot: u32) -> Option<Scalar> {
        match span_at(&self.spans, at) {
            Some(span) => slot_in(span.form, part(self.words.as_slice(), span), slot),
            None => None,
        }
    }

    fn answer(&self, at: u64, index: u32) -> Option<bool> {
        match span_at(&self.spans, at) {
            Some(span) => answer_in(span.form, part(self.words.as_slice(), span), index),
            None => None,
        }
    }

    fn set_field(&mut self, at: u64, slot: u32, value: Scalar) -> bool
        ensures answer { result ≡ is_some (asked_of (with_slot slot value) at (stored_of self.old)) }
        ensures store { stored_of self.new ≡ changed (with_slot slot value) at (stored_of self.old) }
        ensures flat { self.new ≡ slot_written at slot value self.old }
    {
        match span_at(&self.spans, at) {
            Some(span) => write_slot(&mut self.words, span, slot, value),
            None => false,
        }
    }

    fn set_element(&mut self, at: u64, index: u32, value: u64) -> bool
        ensures answer { result ≡ is_some (asked_of (with_element index value) at (stored_of self.old)) }
        ensures store { stored_of self.new ≡ changed (with_element index value) at (stored_of self.old) }
        ensures flat { self.new ≡ element_written at index value self.old }
    {
        match elements_span(&self.spans, at) {
            Some(span) => write_element(self.part_mut(span), index, value),
            None => false,
        }
    }

    fn pop(&mut self, at: u64) -> Option<bool>
        ensures answer { result ≡ asked_of (answer_of 0) at (stored_of self.old) }
        ensures store { stored_of self.new ≡ changed without_answer at (stored_of self.old) }
        ensures flat { self.new ≡ answer_taken at self.old }
    {
        match span_at(&self.spans, at) {
            Some(span) => take_answer(&mut self.words, span),
            None => None,
        }
    }

    fn add(&mut self, fresh: Fresh) -> Result<u64, Memory>
        requires { (stored_of self.old).top < 2 ^ 63 }
        ensures address { IfOk result (λ at. at ≡ (stored_of self.old).top + 1) }
        ensures ok { OnOk result (stored_of self.new ≡ with_fresh fresh (stored_of self.old)) }
        ensures err { OnErr result (stored_of self.new ≡ stored_of self.old) }
        ensures flat { OnOk result (self.new ≡ added fresh self.old) }
        ensures unchanged { OnErr result (self.new ≡ self.old) }
    {
        let at = self.top + 1;
        let (form, count) = fresh_shape(fresh);
        let start = make_room(
            &mut self.words,
            &mut self.spans,
            &mut self.holes,
            &mut self.freed,
            at,
            form,
            count,
        )?;
        clear(&mut self.words, start, count);
        self.top = at;
        Ok(at)
    }

    fn place(&mut self, at: u64, cell: Cell) -> Result<(), Memory>
        requires absent { cell_at (stored_of self.old) at ≡ None }
        requires least { 1 ≤ at }
        requires most { at < 2 ^ 32 }
        requires short { cell_length cell < 2 ^ 32 }
        ensures ok { OnOk result (stored_of self.new ≡ with_cell at cell (stored_of self.old)) }
        ensures err { OnErr result (stored_of self.new ≡ stored_of self.old) }
        ensures flat { OnOk result (self.new ≡ placed at cell self.old) }
        ensures unchanged { OnErr result (self.new ≡ self.old) }
    {
        let (form, count) = cell_shape(&cell);
        let start = make_room(
            &mut self.words,
            &mut self.spans,
            &mut self.holes,
            &mut self.freed,
            at,
            form,
            count,
        )?;
        write_cell(&mut self.words, start, &cell);
        self.top = self.top.max(at);
        Ok(())
    }

    fn remove(&mut self, at: u64) -> bool
        ensures answer { result ≡ is_some (cell_at (stored_of self.old) at) }
        ensures store { stored_of self.new ≡ without_cell at (stored_of self.old) }
        ensures flat { self.new ≡ removed at self.old }
    {
        match self.spans.remove(&at) {
            Some(span) => {
                free(&mut self.freed, span);
                true
            }
            None => false,
        }
    }
}
