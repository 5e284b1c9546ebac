// A line that comes byte by byte.
ghost use Rattle.shift_text.specs.Buffers.{Fed, FeedAt, GoesOn, HasRoom, Holds, before_feed};
ghost use Rattle.shift_text.specs.Lines.{kept as first_bytes};
ghost use Rattle.std.specs.Prelude.{◌≡◌, ◌≢◌, ◌==◌, ℕ, ◌<◌, ◌≤◌, [], ◌∷◌, ◌++◌, drop, length, position, slice_index, take};

use crate::fields::LONGEST;

// So many bytes are kept of a line, one more than it may have.
const KEPT: usize = LONGEST + 1;

// The line that is being read. Of a longer line the first bytes are kept, which say what the whole line says.
// They lie in an array: `new` takes no allocator and cannot fail, and a line can be copied. A line has no model: with a model inside,
// a `Copy` struct is not covered by the check where it is passed by value and used again.
#[derive(Clone, Copy)]
pub struct LineBuffer {
    bytes: [u8; KEPT],
    used: usize,
    ghost room: { length bytes ≡ 81 },
    ghost within: { used ≤ 81 },
}

// The place of the first line feed.
fn line_feed(chunk: &[u8]) -> Option<usize>
    ensures { result ≡ position (λ b. b == 10) chunk.now }
{
    chunk.iter().position(|byte| *byte == b'\n')
}

// The place of the first line feed from this place on.
fn line_feed_from(chunk: &[u8], from: usize) -> Option<usize>
    requires { from ≤ length chunk.now }
    ensures place { FeedAt chunk.now result }
    ensures from { from ≤ before_feed chunk.now result }
    ensures first { (k : ℕ) → from ≤ k → k < before_feed chunk.now result → slice_index chunk.now k ≢ 10 }
{
    let ahead = line_feed(&chunk[from..])?;
    Some(from + ahead)
}

impl LineBuffer {
    ghost use Rattle.shift_text.specs.LineBuffers.{buffer};

    // The empty line.
    pub fn new() -> LineBuffer
        ensures empty { (buffer result).kept ≡ [] }
        ensures holds { Holds (buffer result).kept [] }
        ensures room { HasRoom (buffer result) }
    {
        LineBuffer {
            bytes: [0; KEPT],
            used: 0,
        }
    }

    // The line so far.
    pub fn bytes(&self) -> &[u8]
        ensures content { result.now ≡ (buffer self.now).kept }
        ensures few { length result.now ≤ 81 }
        ensures room { HasRoom (buffer self.now) }
    {
        &self.bytes[..self.used]
    }

    // One byte more.
    pub fn push(&mut self, byte: u8)
        ensures pushed { (buffer self.new).kept ≡ first_bytes ((buffer self.old).kept ++ byte ∷ []) }
        ensures goes_on { GoesOn (buffer self.old).kept (buffer self.new).kept (byte ∷ []) }
        ensures beyond { (buffer self.new).beyond ≡ drop 1 (buffer self.old).beyond }
        ensures room { HasRoom (buffer self.old) × HasRoom (buffer self.new) }
    {
        self.store(byte);
    }

    // The byte goes behind those of the line, where there is room.
    fn store(&mut self, byte: u8)
        ensures kept { (buffer self.new).kept ≡ first_bytes ((buffer self.old).kept ++ byte ∷ []) }
        ensures beyond { (buffer self.new).beyond ≡ drop 1 (buffer self.old).beyond }
        ensures room { HasRoom (buffer self.old) × HasRoom (buffer self.new) }
    {
        if self.used < KEPT {
            self.bytes[self.used] = byte;
            self.used += 1;
        }
    }

    // Takes the bytes of the chunk before its first line feed, and answers the place of that line feed. Bytes for which there is no
    // room are only searched.
    pub fn feed(&mut self, chunk: &[u8]) -> Option<usize>
        ensures fed { Fed (buffer self.old).kept (buffer self.new).kept chunk.now result }
        ensures kept { (buffer self.new).kept ≡ first_bytes ((buffer self.old).kept ++ take (before_feed chunk.now result) chunk.now) }
        ensures beyond { (buffer self.new).beyond ≡ drop (before_feed chunk.now result) (buffer self.old).beyond }
        ensures room { HasRoom (buffer self.old) × HasRoom (buffer self.new) }
    {
        let room = chunk.len().min(KEPT - self.used);
        match self.append(&chunk[..room]) {
            Some(place) => Some(place),
            None => line_feed_from(chunk, room),
        }
    }

    // The next line begins.
    pub fn clear(&mut self)
        ensures empty { (buffer self.new).kept ≡ [] }
        ensures holds { Holds (buffer self.new).kept [] }
        ensures beyond { (buffer self.new).beyond ≡ (buffer self.old).kept ++ (buffer self.old).beyond }
        ensures room { HasRoom (buffer self.old) × HasRoom (buffer self.new) }
    {
        self.used = 0;
    }

    // The bytes before the first line feed go behind those of the line, which has room for all. Answers the place of that line feed.
    // `used` is written once, at the end: written byte by byte, it would be read back from memory each time.
    fn append(&mut self, bytes: &[u8]) -> Option<usize>
        requires { length bytes.now ≤ length (buffer self.old).beyond }
        ensures place { FeedAt bytes.now result }
        ensures first { (k : ℕ) → k < before_feed bytes.now result → slice_index bytes.now k ≢ 10 }
        ensures kept { (buffer self.new).kept ≡ (buffer self.old).kept ++ take (before_feed bytes.now result) bytes.now }
        ensures beyond { (buffer self.new).beyond ≡ drop (before_feed bytes.now result) (buffer self.old).beyond }
    {
        let begun = self.used;
        for (place, byte) in bytes.iter().enumerate() {
            if *byte == b'\n' {
                self.used = begun + place;
                return Some(place);
            }
            self.bytes[begun + place] = *byte;
        }
        self.used = begun + bytes.len();
        None
    }
}
