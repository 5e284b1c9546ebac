// An answer to a line of text.
ghost use Rattle.shift_text.specs.Replies.{reply_line};
ghost use Rattle.std.specs.Prelude.{Some};

use crate::reply::Reply;
use calls::Refusal;
use std::fmt;

// The answer to the line of this number.
#[derive(Clone, Copy)]
pub struct ReplyLine {
    pub number: u32,
    pub reply: Result<Reply, Refusal>,
}

impl fmt::Display for ReplyLine {
    ghost output = { λ l. Some (reply_line l.number l.reply) };

    #[tactic(auto, using(crate::proofs::Replying::zero_digit))]
    fn fmt<W: fmt::Write>(&self, f: &mut fmt::Formatter<W>) -> fmt::Result {
        let number = self.number;
        match self.reply {
            Ok(reply) => writeln!(f, "{number}\t0\t{reply}"),
            Err(refusal) => {
                let (code, value) = refusal.code();
                writeln!(f, "{number}\t{code}\t{value}")
            }
        }
    }
}
