//! Lists that have a first item.
ghost use Rattle.std.specs.Prelude.{◌≡◌, ◌<◌, ◌↔◌, ◌∷◌, ◌++◌, [], IfOk, IfSome, IsNone, List, OnOk, OnErr, Some, length, slice_get};
ghost use Rattle.std.specs.Slice.Iter.{iter_rest};

use std::alloc::{AllocError, Global};
use std::convert::AsSlice;
use std::marker::Model;
use std::slice::Iter;

/// A list of at least one item.
#[derive(Debug, Drop)]
pub struct NonEmptyVec<T> {
    items: Vec<T>,
}

impl<T> Model for NonEmptyVec<T> {
    ghost Value = { List T };

    ghost view = { λ list. list.items.items };

    ghost invariant = { λ list. 0 < length list.items.items };
}

impl<T: Drop> NonEmptyVec<T> {
    /// The list of one item.
    pub fn new(alloc: Global, first: T) -> Result<Self, AllocError>
        ensures { IfOk result (λ list. list ≡ first ∷ []) }
    {
        let mut items = Vec::new(alloc);
        items.push(first)?;
        Ok(NonEmptyVec { items })
    }

    /// The list of these items, where there is one.
    pub fn from_vec(items: Vec<T>) -> Option<Self>
        ensures same { IfSome result (λ list. list ≡ items.items) }
        ensures empty { IsNone result ↔ (length items.items ≡ 0) }
    {
        if items.is_empty() {
            return None;
        }
        Some(NonEmptyVec { items })
    }

    /// Adds an item at the end.
    pub fn push(&mut self, item: T) -> Result<(), AllocError>
        ensures ok { OnOk result (self.new ≡ self.old ++ item ∷ []) }
        ensures err { OnErr result (self.new ≡ self.old) }
    {
        self.items.push(item)?;
        Ok(())
    }
}

impl<T> NonEmptyVec<T> {
    /// How many items there are.
    pub fn len(&self) -> usize
        ensures value { result ≡ length self.now }
        ensures positive { 0 < result }
    {
        self.items.len()
    }

    /// The first item.
    pub fn first(&self) -> &T
        ensures { slice_get self.now 0 ≡ Some result.now }
    {
        &self.items[0]
    }

    /// The items, in order.
    pub fn as_slice(&self) -> &[T]
        ensures { result.now ≡ self.now }
    {
        self.items.as_slice()
    }

    /// The items, one after another.
    pub fn iter(&self) -> Iter<'_, T>
        ensures { iter_rest result ≡ self.now }
    {
        self.items.iter()
    }

    /// The items as a plain list.
    pub fn into_vec(self) -> Vec<T>
        ensures { result.items ≡ self }
    {
        self.items
    }
}
