// Bytes in a fixed memory: a line, the lines that are not written out yet, the input whose packets are not taken yet.
ghost use Rattle.std.specs.Prelude.{◌≡◌, ◌+◌, ◌-◌, ◌≤◌, ◌++◌, [], length, drop};
ghost use Rattle.desk_report.specs.Buffer.{stored_at, added};

use std::marker::Model;

// Stores a line from a place on; one that has no room there is not stored. A place and no part of the buffer: a part asks of callers that it lies there.
pub fn store(buffer: &mut [u8], at: usize, line: &[u8])
    ensures { buffer.new ≡ stored_at buffer.old at line.now }
{
    if line.len() <= buffer.len() && at <= buffer.len() - line.len() {
        buffer[at..at + line.len()].copy_from_slice(line);
    }
}

// At most N bytes, one after the other. An array of its own: of arrayvec's vector each call would answer a Result to be dropped, or a drain to be let go.
#[derive(Drop)]
pub struct Bytes<const N: usize> {
    memory: [u8; N],
    len: usize,
}

impl<const N: usize> Model for Bytes<N> {
    ghost use Rattle.std.specs.Prelude.{◌≤◌, List, ℕ, take};

    ghost Value = { List ℕ };

    ghost view = { λ b. take b.len b.memory };

    ghost invariant = { λ b. b.len ≤ N };
}

impl<const N: usize> Bytes<N> {
    // None.
    pub fn new() -> Self
        ensures { result ≡ [] }
    {
        Bytes {
            memory: [0; N],
            len: 0,
        }
    }

    pub fn as_slice(&self) -> &[u8]
        ensures value { result.now ≡ self.now }
        ensures fits { length result.now ≤ N }
    {
        &self.memory[..self.len]
    }

    // How many more have room.
    pub fn room(&self) -> usize
        ensures value { result ≡ N - length self.now }
        ensures fits { length self.now ≤ N }
    {
        N - self.len
    }

    pub fn clear(&mut self)
        ensures { self.new ≡ [] }
    {
        self.len = 0;
    }

    // Adds bytes at the end; those that have no room are not stored.
    pub fn extend(&mut self, bytes: &[u8])
        ensures { self.new ≡ added N self.old bytes.now }
    {
        if bytes.len() <= self.room() {
            self.push(bytes);
        }
    }

    // Adds bytes that have room at the end.
    pub(crate) fn push(&mut self, bytes: &[u8])
        requires { length self.old + length bytes.now ≤ N }
        ensures { self.new ≡ self.old ++ bytes.now }
    {
        store(&mut self.memory, self.len, bytes);
        self.len += bytes.len();
    }

    // Forgets the first n bytes: the others move to the front.
    pub fn forget(&mut self, n: usize)
        ensures { self.new ≡ drop n self.old }
    {
        let first = n.min(self.len);
        self.memory.copy_within(first..self.len, 0);
        self.len -= first;
    }
}
