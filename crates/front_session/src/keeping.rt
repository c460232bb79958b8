// Bytes that are to be handed on.
ghost use Rattle.std.specs.Prelude.{◌≡◌, ◌≤◌, ◌+◌, ◌++◌, [], length, take, drop, min, IfOk};
ghost use Rattle.std.specs.Vec.{vec_capacity};
ghost use Rattle.http_edge.specs.Limits.{head_limit};

use engine_ports::NoMemory;
use http_edge::HEAD_LIMIT;
use std::alloc::Global;
use std::marker::Model;
use std::mem;

/// Bytes that are to be handed on: at most as many as a head may have.
#[derive(Drop)]
pub struct Owed {
    bytes: Vec<u8>,
    at: usize,
    /// Where bytes are put together that take the place of these.
    other: Vec<u8>,
}

impl Model for Owed {
    ghost use Rattle.std.specs.Prelude.{◌≤◌, ℕ, List, drop, length};
    ghost use Rattle.std.specs.Vec.{vec_capacity};
    ghost use Rattle.http_edge.specs.Limits.{head_limit};

    ghost Value = { List ℕ };

    ghost view = { λ o. drop o.at o.bytes.items };

    ghost invariant = { λ o. (o.at ≤ length o.bytes.items)
        × (head_limit ≤ vec_capacity o.bytes) × (head_limit ≤ vec_capacity o.other) };
}

impl Owed {
    /// Takes the memory of two heads.
    pub fn new(alloc: Global) -> Result<Owed, NoMemory>
        ensures { IfOk result (λ o. o ≡ []) }
    {
        Ok(Owed {
            bytes: Vec::with_capacity(alloc, HEAD_LIMIT)?,
            at: 0,
            other: Vec::with_capacity(alloc, HEAD_LIMIT)?,
        })
    }

    /// How many bytes there are.
    pub fn len(&self) -> usize
        ensures { result ≡ length self.now }
    {
        self.bytes.len() - self.at
    }

    /// The bytes.
    pub fn as_slice(&self) -> &[u8]
        ensures { result.now ≡ self.now }
    {
        &self.bytes[self.at..]
    }

    /// Keeps these bytes in the place of those that it has. It takes no memory.
    pub fn keep(&mut self, bytes: &[u8])
        requires { length bytes.now ≤ head_limit }
        ensures { self.new ≡ bytes.now }
    {
        self.at = 0;
        self.bytes.clear();
        let Ok(()) = self.bytes.extend_from_slice(bytes) else {
            unreachable!()
        };
    }

    /// Puts more bytes between these, at this place. It takes no memory.
    pub fn put(&mut self, place: usize, more: &[u8])
        requires place { place ≤ length self.old }
        requires room { length self.old + length more.now ≤ head_limit }
        ensures { self.new ≡ take place self.old ++ (more.now ++ drop place self.old) }
    {
        let (front, back) = self.bytes[self.at..].split_at(place);
        join(front, more, back, &mut self.other);
        mem::swap(&mut self.bytes, &mut self.other);
        self.at = 0;
    }

    /// Drops all.
    pub fn clear(&mut self)
        ensures { self.new ≡ [] }
    {
        self.at = 0;
        self.bytes.clear();
    }

    /// Moves as many bytes to the place as there are and have room, and answers how many.
    pub fn give(&mut self, into: &mut [u8]) -> usize
        ensures count { result ≡ min (length self.old) (length into.new) }
        ensures front { take result into.new ≡ take result self.old }
        ensures left { self.new ≡ drop result self.old }
    {
        let count = copy_front(&self.bytes[self.at..], into);
        self.at += count;
        count
    }
}

/// Puts three pieces together, in the place of what stood there.
fn join(front: &[u8], more: &[u8], back: &[u8], into: &mut Vec<u8>)
    requires fits { length front.now + length more.now + length back.now ≤ head_limit }
    requires room { head_limit ≤ vec_capacity into.old }
    ensures room { head_limit ≤ vec_capacity into.new }
    ensures joined { into.new.items ≡ front.now ++ (more.now ++ back.now) }
{
    into.clear();
    push(into, front);
    push(into, more);
    push(into, back);
}

/// Adds bytes, for which there is room. It takes no memory.
fn push(into: &mut Vec<u8>, bytes: &[u8])
    requires fits { length into.old.items + length bytes.now ≤ head_limit }
    requires room { head_limit ≤ vec_capacity into.old }
    ensures room { head_limit ≤ vec_capacity into.new }
    ensures pushed { into.new.items ≡ into.old.items ++ bytes.now }
{
    let Ok(()) = into.extend_from_slice(bytes) else {
        unreachable!()
    };
}

/// Copies as many bytes to the place as there are and have room, and answers how many.
fn copy_front(bytes: &[u8], into: &mut [u8]) -> usize
    ensures count { result ≡ min (length bytes.now) (length into.new) }
    ensures front { take result into.new ≡ take result bytes.now }
{
    let count = bytes.len().min(into.len());
    into[..count].copy_from_slice(&bytes[..count]);
    count
}
