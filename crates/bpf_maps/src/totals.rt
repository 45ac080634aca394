//! Counters of one owner.
ghost use Rattle.std.specs.Prelude.{◌≡◌, ◌+◌, ◌++◌, ◌%◌, ◌^◌, ◌<◌, ◌≤◌, ◌∷◌, ℕ, All, map, slice_get, slice_index, length, IfOk, OnOk};
ghost use Rattle.std.specs.Slots.{slots_items, slots_len, IsFull};
ghost use Rattle.bpf_maps.specs.Beginning.{given, numbers_of};
ghost use Rattle.bpf_maps.specs.Numbers.{filled};
ghost use Rattle.bpf_maps.specs.Seats.{total_at};
ghost use Rattle.bpf_note.specs.Shape.{IsCounter, most_maps};
ghost use Rattle.bpf_maps.specs.Layout.{total as all};

use crate::layout;
use atomic_table::Closed;
use bpf_note::MapShape;
use std::alloc::{AllocError, Global};
use std::marker::Model;

/// The counters of all maps, with one owner. Contracts see the maps' shapes and all numbers in order.
#[derive(Drop)]
pub struct Totals {
    shapes: Vec<MapShape>,
    values: Vec<u64>,
}

impl Model for Totals {
    ghost use Rattle.std.specs.Prelude.{◌≡◌, ◌≤◌, length};
    ghost use Rattle.bpf_note.specs.Shape.{most_maps};
    ghost use Rattle.bpf_maps.specs.Layout.{total};
    ghost use Rattle.bpf_maps.specs.Seats.{TotalsView};

    ghost Value = { TotalsView };

    ghost view = { λ t. record { shapes = t.shapes.items; values = t.values.items } };

    ghost invariant = { λ t. (length t.shapes.items ≤ most_maps) × (length t.values.items ≡ total t.shapes.items) };
}

impl Totals {
    /// All counters are 0.
    pub fn make(alloc: Global, shapes: &[MapShape]) -> Result<Totals, AllocError>
        requires { length shapes.now ≤ most_maps }
        ensures shapes { IfOk result (λ t. t.shapes ≡ shapes.now) }
        ensures zeros { IfOk result (λ t. (m k j : ℕ) → total_at t m k j ≡ 0) }
    {
        let count = layout::total(shapes);
        let shapes = layout::copied(alloc, shapes)?;
        let values = Vec::from_elem(alloc, 0, count)?;
        Ok(Totals { shapes, values })
    }

    /// The counters of each map begin with the numbers of its list, value by value, and with 0 where there is none.
    pub fn begin(
        alloc: Global,
        shapes: &[MapShape],
        lists: &[Vec<u64>],
    ) -> Result<Totals, AllocError>
        requires { length shapes.now ≤ most_maps }
        ensures shapes { IfOk result (λ t. t.shapes ≡ shapes.now) }
        ensures begins { IfOk result (λ t. (m k j : ℕ) → IsCounter shapes.now m k j →
            total_at t m k j ≡ given shapes.now (map (λ l. l.items) lists.now) m k j) }
        ensures small { IfOk result (λ t. (m k j : ℕ) → total_at t m k j < 2 ^ 64) }
    {
        let mut values = Vec::with_capacity(alloc, layout::total(shapes))?;
        for (m, shape) in shapes.iter().enumerate() {
            push_numbers(&mut values, layout::size(shape), numbers_of(lists, m))?;
        }
        let shapes = layout::copied(alloc, shapes)?;
        Ok(Totals { shapes, values })
    }

    /// All numbers, in the order of their places.
    pub fn into_numbers(self) -> Vec<u64>
        ensures numbers { result.items ≡ self.values }
        ensures count { length result.items ≡ all self.shapes }
    {
        self.values
    }

    /// Totals of these numbers, in the order of their places.
    pub(crate) fn of(shapes: Vec<MapShape>, values: Vec<u64>) -> Totals
        requires maps { length shapes.items ≤ most_maps }
        requires values { length values.items ≡ all shapes.items }
        ensures { result ≡ record { shapes = shapes.items; values = values.items } }
    {
        Totals { shapes, values }
    }

    /// The maps' shapes and all numbers.
    pub(crate) fn into_parts(self) -> (Vec<MapShape>, Vec<u64>)
        ensures maps { length result.0.items ≤ most_maps }
        ensures values { length result.1.items ≡ all result.0.items }
        ensures same { self ≡ record { shapes = result.0.items; values = result.1.items } }
    {
        (self.shapes, self.values)
    }

    /// Counter `j` of value `k` of map `m`.
    pub fn at(&self, m: u32, k: u32, j: u32) -> u64
        requires { IsCounter self.now.shapes m k j }
        ensures { result ≡ total_at self.now m k j }
    {
        self.values[layout::place(self.shapes.as_slice(), m, k, j)]
    }

    /// Adds to counter `j` of value `k` of map `m`, and answers what it was. The sum wraps.
    pub fn add(&mut self, m: u32, k: u32, j: u32, delta: u64) -> u64
        requires { IsCounter self.old.shapes m k j }
        ensures answer { result ≡ total_at self.old m k j }
        ensures shapes { self.new.shapes ≡ self.old.shapes }
        ensures here { total_at self.new m k j ≡ (result + delta) % 2 ^ 64 }
        ensures others { (a b c : ℕ) → IsCounter self.old.shapes a b c → ¬ ((a ≡ m) × (b ≡ k) × (c ≡ j)) →
            total_at self.new a b c ≡ total_at self.old a b c }
    {
        let place = layout::place(self.shapes.as_slice(), m, k, j);
        let old = self.values[place];
        self.values[place] = old.wrapping_add(delta);
        old
    }

    /// Takes the words of a table that is closed, but for the first.
    pub(crate) fn take_words(&mut self, closed: &Closed<(), Global>)
        requires { IsFull closed.now.words × (slots_len closed.now.words ≡ 1 + all self.old.shapes) }
        ensures shapes { self.new.shapes ≡ self.old.shapes }
        ensures values { (i : ℕ) → i < all self.old.shapes →
            slice_index self.new.values i ≡ slice_index (slots_items closed.now.words) (i + 1) }
    {
        for i in 0..self.values.len() {
            self.values[i] = closed.word(i + 1);
        }
    }
}

/// The words of a table whose counters begin with these numbers: word 0 is spare.
pub(crate) fn table_words(alloc: Global, numbers: &[u64]) -> Result<Vec<u64>, AllocError>
    ensures words { IfOk result (λ v. v.items ≡ 0 ∷ numbers.now) }
    ensures small { IfOk result (λ _. All (λ n. n < 2 ^ 64) numbers.now) }
{
    let mut words = Vec::new(alloc);
    words.push(0)?;
    push_numbers(&mut words, numbers.len(), numbers)?;
    Ok(words)
}

/// The list of a map, empty where there is none.
fn numbers_of(lists: &[Vec<u64>], m: usize) -> &[u64]
    ensures { result.now ≡ numbers_of (slice_get (map (λ l. l.items) lists.now) m) }
{
    match lists.get(m) {
        Some(list) => list.as_slice(),
        None => &[],
    }
}

/// The number of a list at a place, 0 past its end.
fn number_at(numbers: &[u64], place: usize) -> u64
    ensures { result ≡ slice_index numbers.now place }
{
    match numbers.get(place) {
        Some(number) => *number,
        None => 0,
    }
}

/// Pushes so many numbers of a list.
fn push_numbers(values: &mut Vec<u64>, count: usize, numbers: &[u64]) -> Result<(), AllocError>
    ensures pushed { OnOk result (values.new.items ≡ values.old.items ++ filled count numbers.now) }
    ensures small { OnOk result (All (λ n. n < 2 ^ 64) (filled count numbers.now)) }
{
    for place in 0..count {
        values.push(number_at(numbers, place))?;
    }
    Ok(())
}
