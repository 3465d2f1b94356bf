//! A value for each hart.
ghost use Rattle.std.specs.Prelude.{◌≡◌, ◌<◌, ◌≤◌, ◌-◌, [], ◌∷◌, ◌++◌, length, get_or, replicate, IfOk};
ghost use Rattle.std.specs.Vec.{vec_capacity};
ghost use Rattle.machines.specs.Places.{change};
ghost use Rattle.coz_types.specs.declared.TheConstants.{HARTS};

use coz_types::{HARTS, HartId};
use std::alloc::{AllocError, Global};
use std::marker::Model;

/// A finite map from the numbers of harts, which contracts see as the list of its values by
/// number. `new` alone can be out of memory.
#[derive(Drop)]
pub struct Places<T> {
    items: Vec<T>,
}

impl<T> Model for Places<T> {
    ghost use Rattle.std.specs.Prelude.{◌≤◌, List, length};
    ghost use Rattle.std.specs.Vec.{vec_capacity};
    ghost use Rattle.coz_types.specs.declared.TheConstants.{HARTS};

    ghost Value = { List T };

    ghost view = { λ p. p.items.items };

    ghost invariant = { λ p. (length p.items.items ≤ HARTS) × (HARTS ≤ vec_capacity p.items) };
}

/// Appends values until there are `count`.
#[inline(never)]
fn extend<T: Copy>(items: &mut Vec<T>, count: usize, fresh: T)
    requires fewer { length items.old.items ≤ count }
    requires room { count ≤ vec_capacity items.old }
    ensures items { items.new.items
        ≡ items.old.items ++ replicate (count - length items.old.items) fresh }
    ensures capacity { vec_capacity items.old ≤ vec_capacity items.new }
{
    while items.len() < count {
        let Ok(()) = items.push(fresh) else {
            unreachable!()
        };
    }
}

/// Puts a value at an index past the last one, with `fresh` before it where there is none.
#[inline(never)]
fn append_at<T: Copy>(items: &mut Vec<T>, index: usize, value: T, fresh: T)
    requires low { index < HARTS }
    requires past { length items.old.items ≤ index }
    requires room { HARTS ≤ vec_capacity items.old }
    ensures items { items.new.items ≡ change fresh index (λ _. value) items.old.items }
    ensures few { length items.new.items ≤ HARTS }
    ensures capacity { vec_capacity items.old ≤ vec_capacity items.new }
{
    extend(items, index, fresh);
    let Ok(()) = items.push(value) else {
        unreachable!()
    };
}

/// Puts a value in the place of another one.
#[inline(always)]
fn set_at<T: Copy>(items: &mut Vec<T>, index: usize, value: T)
    requires held { index < length items.old.items }
    ensures items { (fresh : T) → items.new.items ≡ change fresh index (λ _. value)
        items.old.items }
    ensures count { length items.new.items ≡ length items.old.items }
    ensures capacity { vec_capacity items.old ≤ vec_capacity items.new }
{
    items[index] = value;
}

/// Puts a value at an index, with `fresh` before it where there is none.
#[inline(always)]
fn put_at<T: Copy>(items: &mut Vec<T>, index: usize, value: T, fresh: T)
    requires low { index < HARTS }
    requires few { length items.old.items ≤ HARTS }
    requires room { HARTS ≤ vec_capacity items.old }
    ensures items { items.new.items ≡ change fresh index (λ _. value) items.old.items }
    ensures few { length items.new.items ≤ HARTS }
    ensures capacity { vec_capacity items.old ≤ vec_capacity items.new }
{
    let is_held = index < items.len();
    if is_held {
        items[index] = value;
        return;
    }
    append_at(items, index, value, fresh);
}

impl<T: Copy> Places<T> {
    /// Returns a map with the value of hart 0, and room for all harts. Fails only if out of memory.
    pub fn new(alloc: Global, first: T) -> Result<Places<T>, AllocError>
        ensures { IfOk result (λ places. places ≡ first ∷ []) }
    {
        let mut items = Vec::with_capacity(alloc, HARTS)?;
        items.push(first)?;
        Ok(Places { items })
    }

    /// The value of a hart, or `fresh` if it has none.
    #[inline(always)]
    pub fn get(&self, hart: HartId, fresh: T) -> T
        ensures { result ≡ get_or self.now hart.0 fresh }
    {
        let index = usize::from(hart.0);
        if index < self.items.len() {
            self.items[index]
        } else {
            fresh
        }
    }

    /// Gives a hart that has a value another one.
    #[inline(always)]
    pub fn set(&mut self, hart: HartId, value: T)
        requires held { hart.0 < length self.old }
        ensures { (fresh : T) → self.new ≡ change fresh hart.0 (λ _. value) self.old }
    {
        set_at(&mut self.items, usize::from(hart.0), value);
    }

    /// Gives a hart a value. Harts before it that had none get `fresh`.
    #[inline(always)]
    pub fn put(&mut self, hart: HartId, value: T, fresh: T)
        requires low { hart.0 < HARTS }
        ensures { self.new ≡ change fresh hart.0 (λ _. value) self.old }
    {
        put_at(&mut self.items, usize::from(hart.0), value, fresh);
    }

    /// Makes this map equal to another one.
    pub fn copy_from(&mut self, other: &Places<T>)
        ensures { self.new ≡ other.now }
    {
        self.items.clear();
        let Ok(()) = self.items.extend_from_slice(&other.items) else {
            unreachable!()
        };
    }
}
