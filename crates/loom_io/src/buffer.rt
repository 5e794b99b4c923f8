//! Bytes with room for more, which was taken when the buffer was made.
ghost use Rattle.std.specs.Prelude.{◌≡◌, ◌+◌, ◌<◌, ◌≤◌, [], ◌∷◌, ◌++◌, IfOk, length};

use loom_tree::name::NoMemory;
use std::alloc::Global;
use std::marker::Model;

/// Bytes, and room for more. It takes no memory once it is made.
#[derive(Debug, Drop)]
pub struct Buffer {
    items: Vec<u8>,
}

impl Model for Buffer {
    ghost use Rattle.std.specs.Prelude.{◌-◌, vec_len, vec_capacity};
    ghost use Rattle.loom_io.specs.Buffer.{Buffer};

    ghost Value = { Buffer };

    ghost view = { λ b. record { bytes = b.items.items; room = vec_capacity b.items - vec_len b.items } };
}

impl Buffer {
    // An empty buffer with room for so many bytes. An `Err` is want of memory.
    pub(crate) fn make(alloc: Global, room: usize) -> Result<Buffer, NoMemory>
        ensures empty { IfOk result (λ b. b.bytes ≡ []) }
        ensures room { IfOk result (λ b. b.room ≡ room) }
    {
        let items = Vec::with_capacity(alloc, room)?;
        Ok(Buffer { items })
    }

    /// What the buffer holds.
    pub fn bytes(&self) -> &[u8]
        ensures { result.now ≡ self.now.bytes }
    {
        self.items.as_slice()
    }

    // How many more bytes the buffer takes.
    pub(crate) fn room(&self) -> usize
        ensures { result ≡ self.now.room }
    {
        self.items.capacity() - self.items.len()
    }

    fn push(&mut self, byte: u8)
        requires { 0 < self.old.room }
        ensures bytes { self.new.bytes ≡ self.old.bytes ++ byte ∷ [] }
        ensures room { self.new.room + 1 ≡ self.old.room }
    {
        self.items.push_reserved(byte);
    }

    // Appends the bytes.
    pub(crate) fn add(&mut self, piece: &[u8])
        requires { length piece.now ≤ self.old.room }
        ensures bytes { self.new.bytes ≡ self.old.bytes ++ piece.now }
        ensures room { self.new.room + length piece.now ≡ self.old.room }
    {
        for byte in piece {
            self.push(*byte);
        }
    }
}
