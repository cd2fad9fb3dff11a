// A list with room for a fixed number of items, kept in the value itself.
#![tactic(auto)]

ghost use Rattle.std.specs.Prelude.{◌≡◌, ◌≤◌, List, [], ◌∷◌, ◌++◌, length, take, slice_set, is_ok, if◌then◌else◌, nat_lt};

use std::marker::Model;

// A list of at most N items: the first `count` of `items`. The others are filler.
#[derive(Drop)]
pub struct Bounded<T, const N: usize> {
    items: [T; N],
    count: usize,
}

// Contracts see the list.
impl<T, const N: usize> Model for Bounded<T, N> {
    ghost Value = { List T };

    ghost view = { λ b. take b.count b.items };

    ghost invariant = { λ b. (b.count ≤ N) × (length b.items ≡ N) };
}

// Each method does what the method of a `Vec` does on the list that the value stands for.
impl<T: Copy, const N: usize> Bounded<T, N> {
    // The empty list. The filler is never read.
    pub fn new(filler: T) -> Bounded<T, N>
        ensures { result ≡ [] }
    {
        Bounded {
            items: [filler; N],
            count: 0,
        }
    }

    pub fn len(&self) -> usize
        ensures answer { result ≡ length self.now }
        ensures room { result ≤ N }
    {
        self.as_slice().len()
    }

    pub fn as_slice(&self) -> &[T]
        ensures items { result.now ≡ self.now }
        ensures room { length result.now ≤ N }
    {
        &self.items[..self.count]
    }

    // Puts an item at the end. A full list hands it back and stays as it is.
    pub fn push(&mut self, item: T) -> Result<(), T>
        ensures answer { result ≡ (if nat_lt (length self.old) N then Ok tt else Err item) }
        ensures after { self.new ≡ (if is_ok result then self.old ++ (item ∷ []) else self.old) }
    {
        if self.count == N {
            return Err(item);
        }
        self.items[self.count] = item;
        self.count += 1;
        Ok(())
    }

    // Puts an item in the place of the one at `index`. Past the end it hands the item back, and nothing changes.
    pub fn set(&mut self, index: usize, item: T) -> Result<(), T>
        ensures answer { result ≡ (if nat_lt index (length self.old) then Ok tt else Err item) }
        ensures after { self.new ≡ (if is_ok result then slice_set self.old index item else self.old) }
    {
        let filled = &mut self.items[..self.count];
        if index >= filled.len() {
            return Err(item);
        }
        filled[index] = item;
        Ok(())
    }
}
