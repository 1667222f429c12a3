//! Lines of a text, which are gathered before they go to the text.
ghost use Rattle.std.specs.Prelude.{◌≡◌, ◌≤◌, ◌<◌, ◌+◌, ◌++◌, ◌∷◌, ℕ, List, [], length, take};

use std::marker::Model;

/// Lines of at most 2,048 bytes together. Contracts see the list of their bytes.
#[derive(Drop)]
pub(crate) struct Lines {
    held: [u8; 2048],
    count: usize,
}

impl Model for Lines {
    ghost use Rattle.std.specs.Prelude.{List, ℕ, ◌≤◌, take};

    ghost Value = { List ℕ };

    ghost view = { λ l. take l.count l.held };

    ghost invariant = { λ l. l.count ≤ 2048 };
}

impl Lines {
    /// No line.
    pub(crate) fn new() -> Lines
        ensures { result ≡ [] }
    {
        Lines {
            held: [0; 2048],
            count: 0,
        }
    }

    /// Their bytes.
    pub(crate) fn bytes(&self) -> &[u8]
        ensures { result.now ≡ self.now }
    {
        &self.held[..self.count]
    }

    /// How many bytes they have.
    pub(crate) fn len(&self) -> usize
        ensures value { result ≡ length self.now }
    {
        self.count
    }

    /// One more byte.
    pub(crate) fn push(&mut self, byte: u8)
        requires { length self.old < 2048 }
        ensures items { self.new ≡ self.old ++ byte ∷ [] }
    {
        self.held[self.count] = byte;
        self.count += 1;
    }

    /// The first of these bytes, as many as are counted. All of them are copied, which takes a few steps of the machine, and what comes
    /// next goes over the others.
    pub(crate) fn push_first(&mut self, bytes: [u8; 24], count: usize)
        requires count { count ≤ 24 }
        requires room { length self.old + 24 ≤ 2048 }
        ensures items { self.new ≡ self.old ++ take count bytes }
    {
        self.held[self.count..self.count + 24].copy_from_slice(&bytes);
        self.count += count;
    }

    /// The same without the last byte.
    pub(crate) fn pop(&mut self)
        requires { 0 < length self.old }
        ensures items { (front : List ℕ) (last : ℕ) → self.old ≡ front ++ last ∷ [] → self.new ≡ front }
        ensures len { length self.new + 1 ≡ length self.old }
    {
        self.count -= 1;
    }

    /// No line any more.
    pub(crate) fn clear(&mut self)
        ensures { self.new ≡ [] }
    {
        self.count = 0;
    }
}
