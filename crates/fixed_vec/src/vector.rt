// `FixedVec` and its methods.
ghost use Rattle.std.specs.Prelude.{◌≡◌, ◌+◌, ◌-◌, ◌<◌, ◌≤◌, ◌==◌, ◌↔◌, [], ◌∷◌, ◌++◌, length, take, IsSome, IfNone, OnSome, slice_get, slice_index_or, insert, remove};
ghost use Rattle.std.specs.Option.{option_to_list};
ghost use Rattle.std.specs.Borrow.{sem};

use crate::cells::Cells;
use std::marker::Model;
use std::ops::{DerefSlice, DerefSliceMut};

// A vector of at most `CAP` elements, which lie in the value itself. The library's `ArrayVec` is no `Copy`: what its contracts see leaves out
// the unused cells. Here they are in the model, which so gives the fields back.
#[derive(Clone, Copy)]
pub struct FixedVec<T, const CAP: usize> {
    cells: Cells<T, CAP>,
    len: usize,
}

impl<T, const CAP: usize> Model for FixedVec<T, CAP> {
    ghost use Rattle.std.specs.Prelude.{◌≤◌, ◌++◌};
    ghost use Rattle.std.proofs.Common.{take-append-drop};
    ghost use Rattle.fixed_vec.specs.FixedVec.{FixedVec as Items, fixed_vec_code, cut};

    ghost Value = { Items T };

    ghost coded = { fixed_vec_code T.code };

    ghost view = { λ v. cut v.len v.cells.xs };

    ghost invariant = { λ v. v.len ≤ CAP };

    ghost inverse = { λ v. record { cells = record { xs = v.items ++ v.room.spare }; len = v.room.start } };

    ghost inverse_ok = { λ v h i. record {
      cells = record { xs = take-append-drop v.len v.cells.xs i };
      len = v.len;
    } };
}

impl<T: Default, const CAP: usize> FixedVec<T, CAP> {
    // An empty vector.
    pub fn new() -> Self
        ensures { result.items ≡ [] }
    {
        FixedVec {
            cells: Cells {
                xs: Default::default(),
            },
            len: 0,
        }
    }
}

impl<T, const CAP: usize> FixedVec<T, CAP> {
    ghost use Rattle.fixed_vec.specs.Lends.{lends_slice};

    // How many elements there are.
    #[inline]
    pub fn len(&self) -> usize
        ensures value { result ≡ length self.now.items }
        ensures fits { result ≤ CAP }
    {
        self.as_slice().len()
    }

    #[inline]
    pub fn is_empty(&self) -> bool
        ensures { result ≡ (length self.now.items == 0) }
    {
        self.len() == 0
    }

    // The elements.
    #[inline]
    pub fn as_slice(&self) -> &[T]
        ensures value { result.now ≡ self.now.items }
        ensures fits { length result.now ≤ CAP }
    {
        &self.cells.xs[..self.len]
    }

    // The elements, for writing.
    #[inline]
    pub fn as_mut_slice(&mut self) -> &mut [T]
        ensures* writes_back { sem 𝓛 (lends_slice T.row CAP.row self.entry result) }
        ensures value { result.now ≡ self.old.items }
        ensures start { self.old.room.start ≡ length self.old.items }
        ensures fits { length result.now ≤ CAP }
    {
        self.cells.front_mut(self.len)
    }
}

impl<T: Copy, const CAP: usize> FixedVec<T, CAP> {
    // Appends an element. There must be room.
    #[inline]
    pub fn push(&mut self, element: T)
        requires { length self.old.items < CAP }
        ensures items { self.new.items ≡ self.old.items ++ element ∷ [] }
        ensures len { length self.new.items ≡ length self.old.items + 1 }
    {
        let len = self.len;
        self.cells.xs[len] = element;
        self.len = len + 1;
    }

    // Inserts an element at `index`, and moves the later ones up. There must be room.
    pub fn insert(&mut self, index: usize, element: T)
        requires in_bounds { index ≤ length self.old.items }
        requires room { length self.old.items < CAP }
        ensures items { self.new.items ≡ insert self.old.items index element }
        ensures len { length self.new.items ≡ length self.old.items + 1 }
    {
        self.push(element);
        open_gap(self.as_mut_slice(), index, element);
    }

    // Removes the last element, if there is one.
    #[inline]
    pub fn pop(&mut self) -> Option<T>
        ensures items { self.old.items ≡ self.new.items ++ option_to_list result }
        ensures variant { IsSome result ↔ (0 < length self.old.items) }
        ensures len { OnSome result (length self.new.items + 1 ≡ length self.old.items) }
        ensures value { result ≡ slice_get self.old.items (length self.old.items - 1) }
        ensures empty { IfNone result (self.new ≡ self.old) }
    {
        if self.is_empty() {
            return None;
        }
        let last = self.len - 1;
        self.len = last;
        Some(self.cells.xs[last])
    }

    // Removes every element.
    #[inline]
    pub fn clear(&mut self)
        ensures { self.new.items ≡ [] }
    {
        self.len = 0;
    }

    // Removes the element at `index`, and moves the later ones down.
    pub fn remove(&mut self, index: usize) -> T
        requires { index < length self.old.items }
        ensures value { result ≡ slice_index_or self.old.items index result }
        ensures items { self.new.items ≡ remove self.old.items index }
        ensures len { length self.new.items + 1 ≡ length self.old.items }
    {
        let element = self.as_slice()[index];
        close_gap(self.as_mut_slice(), index);
        self.len -= 1;
        element
    }
}

// Moves the elements from `index` up to the last one up, over that, and writes an element there.
fn open_gap<T: Copy>(items: &mut [T], index: usize, element: T)
    requires { index < length items.old }
    ensures { items.new ≡ insert (take (length items.old - 1) items.old) index element }
{
    let last = items.len() - 1;
    items.copy_within(index..last, index + 1);
    items[index] = element;
}

// Moves the elements behind `index` down. The last one stays where it was, too.
fn close_gap<T: Copy>(items: &mut [T], index: usize)
    requires { index < length items.old }
    ensures rest { take (length items.old - 1) items.new ≡ remove items.old index }
    ensures len { length items.new ≡ length items.old }
{
    items.copy_within(index + 1.., index);
}

impl<T, const CAP: usize> DerefSlice for FixedVec<T, CAP> {
    type Elem = T;

    ghost deref_gives = { λ v xs. (xs ≡ v.items) × (length xs ≤ CAP) };

    #[inline]
    fn deref(&self) -> &[T] {
        self.as_slice()
    }
}

impl<T, const CAP: usize> DerefSliceMut for FixedVec<T, CAP> {
    ghost use Rattle.fixed_vec.specs.Lends.{lends_slice};

    #[inline]
    fn deref_mut(&mut self) -> &mut [T]
        ensures* writes_back { sem 𝓛 (lends_slice T.row CAP.row self.entry result) }
        ensures value { result.now ≡ self.old.items }
        ensures start { self.old.room.start ≡ length self.old.items }
        ensures fits { length result.now ≤ CAP }
    {
        self.as_mut_slice()
    }
}
