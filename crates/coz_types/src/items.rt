//! The list of a public struct.
ghost use Rattle.std.specs.Prelude.{◌≡◌, List, length};

use std::marker::Model;

/// A list of items. It is made from a vector and given back as one without taking memory.
#[derive(Drop)]
pub struct Items<T> {
    held: Vec<T>,
}

impl<T> Model for Items<T> {
    ghost Value = { List T };

    ghost view = { λ items. items.held.items };
}

impl<T> Items<T> {
    /// The list of the vector's items.
    pub fn new(items: Vec<T>) -> Items<T>
        ensures { result ≡ items.items }
    {
        Items { held: items }
    }

    /// The vector that holds the items.
    pub fn into_vec(self) -> Vec<T>
        ensures { result.items ≡ self }
    {
        self.held
    }

    /// The items, in order.
    pub fn as_slice(&self) -> &[T]
        ensures { result.now ≡ self.now }
    {
        &self.held
    }

    /// The number of items.
    pub fn len(&self) -> usize
        ensures { result ≡ length self.now }
    {
        self.held.len()
    }
}
