//! What pipes hold.
ghost use Rattle.std.specs.Prelude.{◌≡◌, ◌+◌, ◌<◌, ◌≤◌, ◌++◌, [], length, take, drop, replicate, IfOk};
ghost use Rattle.circular_buffer.specs.Buffer.{buffer};
ghost use Rattle.guest_pipes.specs.declared.TheConstants.{PIPE_BYTES};
ghost use Rattle.guest_pipes.specs.Pipes.{emptied};

use crate::ends::is_used;
use crate::{End, PIPE_BYTES};
use circular_buffer::HeapCircularBuffer;
use std::alloc::{AllocError, Global};
use std::marker::Model;

/// The bytes in one pipe, at most `PIPE_BYTES`.
///
/// Contracts see the list of the bytes, the oldest first. `new` alone can be out of memory,
/// and a call with n bytes takes time proportional to n.
#[derive(Drop)]
pub struct Held {
    ring: HeapCircularBuffer<u8>,
}

impl Model for Held {
    ghost use Rattle.std.specs.Prelude.{◌≡◌, ◌≤◌, List, ℕ, length};
    ghost use Rattle.guest_pipes.specs.declared.TheConstants.{PIPE_BYTES};

    ghost Value = { List ℕ };

    ghost view = { λ h. h.ring.items };

    ghost invariant = { λ h. (h.ring.capacity ≡ PIPE_BYTES) × (length h.ring.items ≤ PIPE_BYTES) };
}

impl Held {
    /// No bytes. Err: out of memory.
    pub fn new(alloc: Global) -> Result<Held, AllocError>
        ensures { IfOk result (λ held. held ≡ []) }
    {
        Ok(Held {
            ring: HeapCircularBuffer::with_capacity(alloc, PIPE_BYTES)?,
        })
    }

    /// The number of bytes.
    pub fn len(&self) -> usize
        ensures len { result ≡ length self.now }
        ensures few { result ≤ PIPE_BYTES }
    {
        self.ring.len()
    }

    /// Puts bytes at the end.
    pub fn put(&mut self, bytes: &[u8])
        requires { length self.old + length bytes.now ≤ PIPE_BYTES }
        ensures { self.new ≡ self.old ++ bytes.now }
    {
        self.ring.fill_from_slice(bytes);
    }

    /// Takes `count` bytes from the front.
    pub fn take(&mut self, count: usize)
        requires { count ≤ length self.old }
        ensures { self.new ≡ drop count self.old }
    {
        self.ring.truncate_front(self.ring.len() - count);
    }

    /// Copies the first bytes.
    pub fn peek(&self, into: &mut [u8])
        requires { length into.old ≤ length self.now }
        ensures { into.new ≡ take (length into.old) self.now }
    {
        let (front, back) = self.ring.as_slices();
        copy_first(front, back, into);
    }

    /// Takes all bytes.
    pub fn clear(&mut self)
        ensures { self.new ≡ [] }
    {
        self.ring.clear();
    }

    /// Makes this hold the same bytes as another one.
    pub fn copy_from(&mut self, other: &Held)
        ensures { self.new ≡ other.now }
    {
        self.ring.clear();
        let (front, back) = other.ring.as_slices();
        self.ring.fill_from_slice(front);
        self.ring.fill_from_slice(back);
    }
}

/// Copies the first bytes of two slices, taken as one after the other.
fn copy_first(front: &[u8], back: &[u8], into: &mut [u8])
    requires { length into.old ≤ length front.now + length back.now }
    ensures { into.new ≡ take (length into.old) (front.now ++ back.now) }
{
    let first = front.len().min(into.len());
    let rest = into.len() - first;
    into[..first].copy_from_slice(&front[..first]);
    into[first..].copy_from_slice(&back[..rest]);
}

/// Makes each of these hold the same bytes as the other one of its index.
pub fn copy_each(held: &mut [Held], others: &[Held])
    requires { length held.old ≡ length others.now }
    ensures { held.new ≡ others.now }
{
    for i in 0..held.len() {
        held[i].copy_from(&others[i]);
    }
}

/// `count` pipes that hold nothing.
pub fn all_empty(alloc: Global, count: usize) -> Result<Vec<Held>, AllocError>
    ensures { IfOk result (λ held. held.items ≡ replicate count []) }
{
    let mut held = Vec::with_capacity(alloc, count)?;
    for _ in 0..count {
        held.push(Held::new(alloc)?)?;
    }
    Ok(held)
}

/// Takes all bytes of a pipe, if it isn't in use.
pub fn empty_unused(ends: &[Option<End>], held: &mut [Held], pipe: u8)
    requires { pipe < length held.old }
    ensures { held.new ≡ emptied ends.now pipe held.old }
{
    if !is_used(ends, pipe) {
        held[usize::from(pipe)].clear();
    }
}
