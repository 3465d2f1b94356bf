//! The first items of a list.
ghost use Rattle.std.specs.Prelude.{◌≡◌, [], None, Some, unwrap_or, IfOk};
ghost use Rattle.hart_turns.specs.Firsts.{with_item};

use std::alloc::{AllocError, Global};
use std::marker::Model;

/// The first items of a list, as many as there is room for, and the first that is left out.
/// Contracts see the three parts. `new` alone can be out of memory.
#[derive(Drop)]
pub struct Firsts<T> {
    items: Vec<T>,
    room: usize,
    left_out: Option<T>,
}

impl<T> Model for Firsts<T> {
    ghost use Rattle.std.specs.Prelude.{◌≤◌};
    ghost use Rattle.std.specs.Vec.{vec_capacity};
    ghost use Rattle.hart_turns.specs.Firsts.{Held};

    ghost Value = { Held T };

    ghost view = { λ f. record {
      items = f.items.items;
      room = f.room;
      left_out = f.left_out;
    } };

    ghost invariant = { λ f. f.room ≤ vec_capacity f.items };
}

/// Puts an item into its place, unless an earlier one is there.
fn leave_out<T: Copy>(left_out: &mut Option<T>, item: T)
    ensures { left_out.new ≡ Some (unwrap_or left_out.old item) }
{
    if left_out.is_none() {
        *left_out = Some(item);
    }
}

impl<T: Copy> Firsts<T> {
    /// Returns an empty list that holds at most `room` items. Fails only if out of memory.
    pub fn new(alloc: Global, room: usize) -> Result<Firsts<T>, AllocError>
        ensures { IfOk result (λ firsts. firsts
            ≡ record { items = []; room = room; left_out = None }) }
    {
        Ok(Firsts {
            items: Vec::with_capacity(alloc, room)?,
            room,
            left_out: None,
        })
    }

    /// Keeps an item if there is room for it.
    pub fn add(&mut self, item: T)
        ensures { self.new ≡ with_item item self.old }
    {
        if self.items.len() < self.room {
            let Ok(()) = self.items.push(item) else {
                unreachable!()
            };
        } else {
            leave_out(&mut self.left_out, item);
        }
    }

    /// The items that are kept.
    pub fn items(&self) -> &[T]
        ensures { result.now ≡ self.now.items }
    {
        self.items.as_slice()
    }

    /// The first item that was left out.
    pub fn left_out(&self) -> Option<T>
        ensures { result ≡ self.now.left_out }
    {
        self.left_out
    }
}
