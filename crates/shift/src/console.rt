// Lines in, replies out.
ghost use Rattle.std.specs.Prelude.{◌≡◌, ◌++◌, string_bytes, OnOk};
ghost use Rattle.shift_text.specs.Replies.{reply_line};

use crate::ahead::Ahead;
use calls::Refusal;
use shift_text::{LineBuffer, Reply, ReplyLine};
use std::alloc::Global;
use std::io;
use std::io::{Read, Write};

// So many bytes are asked for at a time.
pub(crate) const CHUNK: usize = 4096;

// The longest reply has two numbers of five digits, one of two, a letter, two tabs and a line feed.
const LONGEST_REPLY: usize = 16;

// Room for the replies to as many lines as a chunk can hold.
const REPLIES: usize = LONGEST_REPLY * CHUNK;

// The input with the line that was read last, and the replies that are not written yet. These wait in a `String`, of which a
// contract says what is in it whatever the output is.
#[derive(Drop)]
pub(crate) struct Console<I: Read, O: Write> {
    input: Ahead<I>,
    ended: bool,
    line: LineBuffer,
    replies: String,
    output: O,
}

impl<I: Read + Drop, O: Write + Drop> Console<I, O> {
    // A console that has read nothing. It asks for all the memory that it needs, once.
    pub(crate) fn new(input: I, output: O, heap: Global) -> io::Result<Console<I, O>> {
        Ok(Console {
            input: Ahead::new(input),
            ended: false,
            line: LineBuffer::new(),
            replies: String::with_capacity(heap, REPLIES)?,
            output,
        })
    }

    // Writes the replies that wait.
    pub(crate) fn flush(&mut self) -> io::Result<()> {
        self.output.write_all(self.replies.as_bytes())?;
        self.replies.clear();
        self.output.flush()
    }

    // Reads more of the input, or answers false at its end, behind which it does not read again. Before it waits for input it
    // writes the replies.
    fn refill(&mut self) -> io::Result<bool> {
        self.flush()?;
        self.ended = self.ended || !self.input.read_more()?;
        Ok(!self.ended)
    }

    // The next line, without its line feed, which the last line may lack; None where there is no line more.
    pub(crate) fn next_line(&mut self) -> io::Result<Option<&[u8]>> {
        self.line.clear();
        if self.input.unread().is_empty() && !self.refill()? {
            return Ok(None);
        }
        // A loop must be seen to end; no input has so many chunks.
        for _ in 0..u64::MAX {
            let chunk = self.input.unread();
            let length = chunk.len();
            if let Some(place) = self.line.feed(chunk) {
                self.input.consume(place + 1);
                break;
            }
            self.input.consume(length);
            if !self.refill()? {
                break;
            }
        }
        Ok(Some(self.line.bytes()))
    }

    // The reply to the line of this number.
    pub(crate) fn reply(&mut self, number: u32, reply: Result<Reply, Refusal>) -> io::Result<()>
        ensures { OnOk result (string_bytes self.new.replies ≡ string_bytes self.old.replies ++ reply_line number reply) }
    {
        let line = ReplyLine { number, reply };
        write!(self.replies, "{line}")?;
        Ok(())
    }
}
