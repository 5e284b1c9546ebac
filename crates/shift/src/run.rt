// A whole shift, from its first line to its end.
use crate::answers::answer;
use crate::console::Console;
use board::Board;
use inspections::{AtEnd, AtFault, Inspection};
use rules::{Both, Count, Gap, Rule};
use shift_text::{FaultRule, InspectionKind, Opening, Reply, read_opening};
use std::alloc::Global;
use std::io;
use std::io::{Read, Write};

// A shift has at most so many lines.
const MOST_LINES: u32 = 99_999;

// Answers the lines of the input until it ends.
pub(crate) fn run<I: Read + Drop, O: Write + Drop>(
    input: I,
    output: O,
    heap: Global,
) -> io::Result<()> {
    let mut console = Console::new(input, output, heap)?;
    let Some(line) = console.next_line()? else {
        return Ok(());
    };
    match read_opening(line) {
        Ok(opening) => under_rule(&mut console, opening)?,
        Err(refusal) => console.reply(1, Err(refusal))?,
    }
    console.flush()
}

// The shift under the opening's rule.
fn under_rule<I: Read + Drop, O: Write + Drop>(
    console: &mut Console<I, O>,
    opening: Opening,
) -> io::Result<()> {
    match opening.rule {
        FaultRule::Count(count) => under_inspection(console, Count::new(count), opening.inspection),
        FaultRule::Gap(gap) => under_inspection(console, Gap::new(gap), opening.inspection),
        FaultRule::Both { count, gap } => {
            let rule = Both::new(Count::new(count), Gap::new(gap));
            under_inspection(console, rule, opening.inspection)
        }
    }
}

// The shift under the rule and the opening's inspection.
fn under_inspection<I: Read + Drop, O: Write + Drop, R: Rule + Drop>(
    console: &mut Console<I, O>,
    rule: R,
    inspection: InspectionKind,
) -> io::Result<()> {
    match inspection {
        InspectionKind::AtEnd => serve(console, rule, AtEnd),
        InspectionKind::AtFault => serve(console, rule, AtFault),
    }
}

// Opens the board and answers the lines after the first.
fn serve<I: Read + Drop, O: Write + Drop, R: Rule + Drop, S: Inspection + Drop>(
    console: &mut Console<I, O>,
    rule: R,
    inspection: S,
) -> io::Result<()> {
    let size = rule.size();
    let mut board = match Board::open(rule, inspection) {
        Ok(board) => board,
        Err(refusal) => return console.reply(1, Err(refusal)),
    };
    console.reply(1, Ok(Reply::Opened { size }))?;
    for number in 2..=MOST_LINES {
        let Some(line) = console.next_line()? else {
            break;
        };
        let answer = answer(&mut board, line);
        console.reply(number, answer.map(Reply::Answered))?;
    }
    Ok(())
}
