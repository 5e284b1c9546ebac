// What is read ahead of an input.
ghost use Rattle.std.specs.Prelude.{◌≡◌, ◌-◌, ◌≤◌, length};

use crate::console::CHUNK;
use std::io;
use std::io::Read;

// An input, and what was read of it and not yet taken. That lies in an array: std's `BufReader` would ask for memory of its own.
#[derive(Drop)]
pub(crate) struct Ahead<I: Read> {
    input: I,
    chunk: [u8; CHUNK],
    at: usize,
    end: usize,
    ghost ordered: { at ≤ end },
    ghost within: { end ≤ 4096 },
}

impl<I: Read + Drop> Ahead<I> {
    // Nothing is read yet.
    pub(crate) fn new(input: I) -> Ahead<I> {
        Ahead {
            input,
            chunk: [0; CHUNK],
            at: 0,
            end: 0,
        }
    }

    // What was read and not yet taken.
    pub(crate) fn unread(&self) -> &[u8]
        ensures { length result.now ≡ self.now.end - self.now.at }
    {
        &self.chunk[self.at..self.end]
    }

    // So many of these bytes are taken, or all.
    pub(crate) fn consume(&mut self, count: usize) {
        self.at += count.min(self.end - self.at);
    }

    // Reads once, when all was taken. Whether anything came.
    pub(crate) fn read_more(&mut self) -> io::Result<bool> {
        let count = self.input.read(&mut self.chunk)?;
        self.at = 0;
        self.end = count;
        Ok(count > 0)
    }
}
