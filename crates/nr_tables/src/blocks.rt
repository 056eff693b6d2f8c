//! Blocks of attributes, each once.

ghost use Rattle.std.specs.Prelude.{◌≡◌, ◌==◌, ◌<◌, ◌+◌, ◌^◌, [], ℕ, length, nat_lt, IfOk, OnErr, get_or, if◌then◌else◌};
ghost use Rattle.std.specs.List.{IsDistinct};
ghost use Rattle.std.specs.Map.{keys_of, values_of};
ghost use Rattle.nr_tables.specs.Shared.{block_at, number_at, renamed, same_block, unnamed};

use crate::block::Block;
use indexmap::IndexMap;
use nr_attrs::Attrs;
use nr_bytes::Memory;
use std::alloc::Global;
use std::marker::Model;

/// Blocks of attributes, each in a place of its own, with the number of rows that name it. A block whose number falls
/// to 0 keeps its place, and may be named again.
#[derive(Drop)]
pub struct Blocks {
    alloc: Global,
    places: IndexMap<Block, usize>,
    // How many places have the number 0.
    unused: usize,
}

impl Model for Blocks {
    ghost use Rattle.std.specs.Prelude.{List, map};
    ghost use Rattle.std.specs.Map.{keys_of, values_of};
    ghost use Rattle.nr_tables.specs.Shared.{Pool, IsPool, kept};

    ghost Value = { Pool };

    ghost view = { λ b. record { blocks = map kept (keys_of b.places.entries); numbers = values_of b.places.entries } };

    ghost invariant = { λ b. IsPool (map kept (keys_of b.places.entries)) (values_of b.places.entries) b.unused };
}

// The places that blocks get where those that no row names are left out.
fn new_places(alloc: Global, places: &IndexMap<Block, usize>) -> Result<Vec<usize>, Memory>
    ensures { IfOk result (λ names. names.items ≡ renamed 0 (values_of places.now.entries)) }
{
    let mut names = Vec::new(alloc);
    let mut next = 0;
    for number in places.values() {
        names.push(next)?;
        if *number > 0 {
            next += 1;
        }
    }
    Ok(names)
}

// Gives a place another number.
fn set_number(places: &mut IndexMap<Block, usize>, place: usize, number: usize)
    requires { place < length places.old.entries }
    ensures keys { keys_of places.new.entries ≡ keys_of places.old.entries }
    ensures numbers { (i : ℕ) → number_at (values_of places.new.entries) i
        ≡ (if i == place then number else number_at (values_of places.old.entries) i) }
    ensures unnamed { (if number_at (values_of places.old.entries) place == 0 then 1 else 0)
        + unnamed (values_of places.new.entries)
        ≡ (if number == 0 then 1 else 0) + unnamed (values_of places.old.entries) }
{
    places[place] = number;
}

impl Blocks {
    pub fn new(alloc: Global) -> Blocks
        ensures blocks { result.blocks ≡ [] }
        ensures numbers { result.numbers ≡ [] }
    {
        Blocks {
            alloc,
            places: IndexMap::new(alloc),
            unused: 0,
        }
    }

    /// The place of attributes. Where they have none they get one, which no row names yet.
    pub fn place_of(&mut self, attrs: &Attrs<'_>) -> Result<usize, Memory>
        requires { length attrs.now.block < 2 ^ 16 }
        ensures place { IfOk result (λ i. (i < length self.new.blocks) × (block_at self.new.blocks i ≡ attrs.now)) }
        ensures blocks { (i : ℕ) → 0 < number_at self.old.numbers i → block_at self.new.blocks i ≡ block_at self.old.blocks i }
        ensures numbers { (i : ℕ) → number_at self.new.numbers i ≡ number_at self.old.numbers i }
        ensures memory { OnErr result (self.new ≡ self.old) }
    {
        let block = Block::copy_of(self.alloc, attrs)?;
        if let Some(place) = self.places.get_index_of(&block) {
            return Ok(place);
        }
        let place = self.places.len();
        self.places.insert(block, 0)?;
        self.unused += 1;
        Ok(place)
    }

    /// One row more names a place.
    pub fn name(&mut self, place: usize)
        requires within { place < length self.old.blocks }
        requires fits { number_at self.old.numbers place < 2 ^ 63 }
        ensures blocks { self.new.blocks ≡ self.old.blocks }
        ensures numbers { (i : ℕ)
            → number_at self.new.numbers i ≡ number_at self.old.numbers i + (if i == place then 1 else 0) }
    {
        let number = self.places[place];
        set_number(&mut self.places, place, number + 1);
        if number == 0 {
            self.unused -= 1;
        }
    }

    /// One row fewer names a place.
    pub fn leave(&mut self, place: usize)
        requires { 0 < number_at self.old.numbers place }
        ensures blocks { self.new.blocks ≡ self.old.blocks }
        ensures numbers { (i : ℕ)
            → number_at self.new.numbers i + (if i == place then 1 else 0) ≡ number_at self.old.numbers i }
    {
        self.places.len();
        let number = self.places[place];
        set_number(&mut self.places, place, number - 1);
        if number == 1 {
            self.unused += 1;
        }
    }

    /// The attributes in a place.
    pub fn attrs(&self, place: usize) -> Attrs<'_>
        requires { 0 < number_at self.now.numbers place }
        ensures same { result ≡ block_at self.now.blocks place }
        ensures short { length result.block < 2 ^ 16 }
    {
        match self.places.get_index(place) {
            Some((block, _)) => block.attrs(),
            None => unreachable!(),
        }
    }

    /// How many places some row names.
    pub fn in_use(&self) -> usize
        ensures value { result + unnamed self.now.numbers ≡ length self.now.numbers }
        ensures distinct { IsDistinct same_block self.now.blocks }
        ensures lengths { length self.now.numbers ≡ length self.now.blocks }
    {
        self.places.len() - self.unused
    }

    /// How many places no row names.
    pub fn unused(&self) -> usize {
        self.unused
    }

    /// Leaves out the places that no row names. Says the new place of each of the others.
    pub fn renew(&mut self) -> Result<Vec<usize>, Memory>
        ensures names { IfOk result (λ names. (i : ℕ) → 0 < number_at self.old.numbers i
            → (block_at self.new.blocks (get_or names.items i 0) ≡ block_at self.old.blocks i)
            × (number_at self.new.numbers (get_or names.items i 0) ≡ number_at self.old.numbers i)) }
        ensures apart { IfOk result (λ names. (i j : ℕ) → 0 < number_at self.old.numbers i
            → 0 < number_at self.old.numbers j → get_or names.items i 0 ≡ get_or names.items j 0 → i ≡ j) }
        ensures all { IfOk result (λ names. (k : ℕ) → 0 < number_at self.new.numbers k
            → (i : ℕ) × (0 < number_at self.old.numbers i) × (get_or names.items i 0 ≡ k)) }
        ensures memory { OnErr result (self.new ≡ self.old) }
    {
        let names = new_places(self.alloc, &self.places)?;
        self.places.retain(
            |_block: &Block, number: &mut usize| -> bool
                ensures { (result ≡ nat_lt 0 number.old) × (number.new ≡ number.old) }
            { *number > 0 },
        );
        self.places.shrink_to_fit();
        self.unused = 0;
        Ok(names)
    }
}
