// The bytes that were read and not yet taken.
ghost use Rattle.std.specs.Prelude.{◌≡◌, ◌<◌, ◌≤◌, ◌-◌, ℕ, List, [], length, take, drop, min, IfOk};
ghost use Rattle.std.specs.Vec.{vec_capacity};
ghost use Rattle.http_edge.specs.Limits.{head_limit};
ghost use Rattle.http_edge.specs.Reading.{ReadsMore};

use crate::fill::{read_behind, shift};
use crate::limits::HEAD_LIMIT;
use engine_ports::{Got, NoMemory, Source};
use std::alloc::Global;
use std::marker::Model;

/// How many bytes are read at once, until that many stand here: most heads are shorter, and what isn't
/// written of a connection's room takes no memory of the machine.
const FIRST_PLACE: usize = 1_024;

/// The bytes that were read and not yet taken, in order: at most as many as a head may have. There is
/// room for as many; a place of it is written only where it is needed.
#[derive(Drop)]
pub struct Ahead {
    bytes: Vec<u8>,
    used: usize,
    len: usize,
}

impl Model for Ahead {
    ghost use Rattle.std.specs.Prelude.{◌≤◌, ℕ, List, drop, take, length};
    ghost use Rattle.std.specs.Vec.{vec_capacity};
    ghost use Rattle.http_edge.specs.Limits.{head_limit};

    ghost Value = { List ℕ };

    ghost view = { λ a. drop a.used (take a.len a.bytes.items) };

    ghost invariant = { λ a. (a.used ≤ a.len) × (a.len ≤ length a.bytes.items)
        × (length a.bytes.items ≤ head_limit) × (head_limit ≤ vec_capacity a.bytes) };
}

impl Ahead {
    /// Takes the memory of a head.
    pub fn new(alloc: Global) -> Result<Ahead, NoMemory>
        ensures { IfOk result (λ a. a ≡ []) }
    {
        let mut bytes = Vec::with_capacity(alloc, HEAD_LIMIT)?;
        bytes.resize(FIRST_PLACE, 0)?;
        Ok(Ahead {
            bytes,
            used: 0,
            len: 0,
        })
    }

    /// How many bytes stand here: at most 16,384.
    pub fn len(&self) -> usize
        ensures count { result ≡ length self.now }
        ensures within { length self.now ≤ head_limit }
    {
        self.len - self.used
    }

    /// The bytes that stand here.
    pub fn as_slice(&self) -> &[u8]
        ensures { result.now ≡ self.now }
    {
        &self.bytes[self.used..self.len]
    }

    /// Drops so many bytes at the front.
    pub fn skip(&mut self, count: usize)
        requires { count ≤ length self.old }
        ensures { self.new ≡ drop count self.old }
    {
        self.used += count;
    }

    /// Moves as many bytes to the place as there are and have room, and answers how many.
    pub fn take(&mut self, into: &mut [u8]) -> usize
        ensures count { result ≡ min (length self.old) (length into.new) }
        ensures front { take result into.new ≡ take result self.old }
        ensures left { self.new ≡ drop result self.old }
    {
        let count = copy_front(self.as_slice(), into);
        self.skip(count);
        count
    }

    /// Reads on behind the bytes that stand here, where there is room for more.
    pub fn read<S: Source>(&mut self, source: &mut S) -> Got
        requires { length self.old < head_limit }
        ensures reads { ReadsMore result self.old self.new
            (S.gives source.old) (S.gives source.new) }
        ensures within { length self.new ≤ head_limit }
    {
        let len = make_place(&mut self.bytes, self.used, self.len);
        self.used = 0;
        self.len = len;
        let got = read_behind(source, &mut self.bytes, len);
        if let Got::Bytes(count) = got {
            self.len = len + count;
        }
        got
    }
}

/// Makes a place of all the room.
fn widen(bytes: &mut Vec<u8>)
    requires within { length bytes.old.items ≤ head_limit }
    requires room { head_limit ≤ vec_capacity bytes.old }
    ensures room { head_limit ≤ vec_capacity bytes.new }
    ensures whole { length bytes.new.items ≡ head_limit }
    ensures before { (n : ℕ) → n ≤ length bytes.old.items
        → take n bytes.new.items ≡ take n bytes.old.items }
{
    let Ok(()) = bytes.resize(HEAD_LIMIT, 0) else {
        unreachable!()
    };
}

/// Moves the bytes from `used` to `len` to the front, makes a place behind them, and answers how many
/// they are.
fn make_place(bytes: &mut Vec<u8>, used: usize, len: usize) -> usize
    requires used { used ≤ len }
    requires len { len ≤ length bytes.old.items }
    requires short { len - used < head_limit }
    requires within { length bytes.old.items ≤ head_limit }
    requires room { head_limit ≤ vec_capacity bytes.old }
    ensures count { result ≡ len - used }
    ensures moved { take result bytes.new.items ≡ drop used (take len bytes.old.items) }
    ensures place { result < length bytes.new.items }
    ensures within { length bytes.new.items ≤ head_limit }
    ensures room { head_limit ≤ vec_capacity bytes.new }
{
    let count = shift(bytes, used, len);
    if count < bytes.len() {
        return count;
    }
    widen(bytes);
    count
}

/// Copies as many bytes to the place as there are and have room, and answers how many.
fn copy_front(bytes: &[u8], into: &mut [u8]) -> usize
    ensures count { result ≡ min (length bytes.now) (length into.new) }
    ensures front { take result into.new ≡ take result bytes.now }
{
    let count = bytes.len().min(into.len());
    into[..count].copy_from_slice(&bytes[..count]);
    count
}
