// Lines that are read, lines that are malformed, and lines that answer.
use super::*;
use calls::{Answer, Call, Event, Job, Refusal};
use std::test::Fail;

#[test]
fn numbers_at_the_front(rt: HostRuntime) {
    for (text, value, left) in [
        ("0", 0, ""),
        ("00", 0, "0"),
        ("09", 0, "9"),
        ("7\t8", 7, "\t8"),
        ("99999", 99_999, ""),
        ("100000", 10_000, "0"),
        ("", NO_NUMBER, ""),
        ("-1", NO_NUMBER, "-1"),
        (" 1", NO_NUMBER, " 1"),
    ] {
        let (read, rest) = number(text.as_bytes());
        assert_eq!(rt; read, value, "{}", text);
        assert_eq!(rt; rest, left.as_bytes(), "{}", text);
    }
}

#[test]
fn lines_of_calls(rt: HostRuntime) {
    let job = Job {
        ticket: 11,
        release: 0,
        due: 99_999,
        length: 2,
    };
    assert_eq!(rt;
        read_call(b"B\t11\t3\t0\t99999\t2"),
        Ok(Call::Book { place: 3, job })
    );
    assert_eq!(rt; read_call(b"W\t7"), Ok(Call::Withdraw { ticket: 7 }));
    assert_eq!(rt; read_call(b"P"), Ok(Call::Pass));
    assert_eq!(rt; read_call(b"S"), Ok(Call::Spoil));
}

#[test]
fn malformed_lines(rt: HostRuntime) {
    for (line, field) in [
        ("", 1),
        ("\t", 1),
        ("p", 1),
        ("PP", 1),
        ("P\r", 1),
        ("\u{e9}", 1),
        ("\0", 1),
        ("O\t1\t-\tH", 1),
        ("P\t", 2),
        ("S\t1", 2),
        ("W", 2),
        ("W\t", 2),
        ("W\t-7", 2),
        ("W\t07", 2),
        ("W\t100000", 2),
        ("W\t7 ", 2),
        ("W\t7\r", 2),
        ("W\t7\t", 3),
        ("B\t1\t2", 4),
        ("B\t1\t2\t3\t4", 6),
        ("B\t1\t2\tx\t4", 4),
        ("B\t1\t2\t3\t4\t5\t6", 7),
    ] {
        let refusal = Refusal::Malformed { field };
        assert_eq!(rt; read_call(line.as_bytes()), Err(refusal), "{}", line);
    }
}

#[test]
fn first_lines(rt: HostRuntime) {
    let inspection = InspectionKind::AtEnd;
    let gap = Opening {
        rule: FaultRule::Gap(5),
        inspection,
    };
    assert_eq!(rt; read_opening(b"O\t-\t5\tH"), Ok(gap));
    let count = Opening {
        rule: FaultRule::Count(0),
        inspection: InspectionKind::AtFault,
    };
    assert_eq!(rt; read_opening(b"O\t0\t-\tE"), Ok(count));
    let both = Opening {
        rule: FaultRule::Both {
            count: 99_999,
            gap: 0,
        },
        inspection,
    };
    assert_eq!(rt; read_opening(b"O\t99999\t0\tH"), Ok(both));
    for (line, field) in [
        ("", 1),
        ("P", 1),
        ("OO\t1\t-\tH", 1),
        ("O", 2),
        ("O\t--\t5\tH", 2),
        ("O\t\t5\tH", 2),
        ("O\t1", 3),
        ("O\t-\t-\tH", 3),
        ("O\t-\t-", 3),
        ("O\t1\t-", 4),
        ("O\t1\t-\th", 4),
        ("O\t1\t-\tHE", 4),
        ("O\t1\t-\tH\t", 5),
    ] {
        let refusal = Refusal::Malformed { field };
        assert_eq!(rt; read_opening(line.as_bytes()), Err(refusal), "{}", line);
    }
}

#[test]
fn long_lines(rt: HostRuntime) {
    let mut line = LineBuffer::new();
    for byte in b"P\t" {
        line.push(*byte);
    }
    for (more, field) in [(78u32, 2), (1, 1), (1_000_000, 1)] {
        for _ in 0..more {
            line.push(b'x');
        }
        assert_eq!(rt; read_call(line.bytes()), Err(Refusal::Malformed { field }));
    }
    line.clear();
    line.push(b'S');
    assert_eq!(rt; read_call(line.bytes()), Ok(Call::Spoil));
}

#[derive(Clone, Copy)]
struct Reading {
    line: LineBuffer,
    number: u32,
}

fn number_of(reading: Reading) -> u32 {
    reading.number
}

fn twice(reading: Reading) -> u32 {
    number_of(reading).wrapping_add(number_of(reading))
}

// A struct that holds a line is passed by value and used again, which the check does not cover where a line has a model.
#[test]
fn copied_with_a_line(rt: HostRuntime) {
    let reading = Reading {
        line: LineBuffer::new(),
        number: 7,
    };
    assert_eq!(rt; twice(reading), 14);
    assert_eq!(rt; reading.line.bytes().len(), 0);
}

#[test]
fn reply_lines(rt: HostRuntime) -> Result<(), Fail> {
    let heap = rt.alloc();
    for (number, reply, text) in [
        (1, Ok(Reply::Opened { size: 512 }), "1\t0\t512\n"),
        (
            2,
            Ok(Reply::Answered(Answer::Taken { worst: 10 })),
            "2\t0\t10\n",
        ),
        (3, Ok(Reply::Answered(Answer::Withdrawn)), "3\t0\t0\n"),
        (
            4,
            Ok(Reply::Answered(Answer::Quarter(Event::Idle))),
            "4\t0\tI0\n",
        ),
        (
            5,
            Ok(Reply::Answered(Answer::Quarter(Event::Running { ticket: 11 }))),
            "5\t0\tR11\n",
        ),
        (
            6,
            Ok(Reply::Answered(Answer::Quarter(Event::Again { ticket: 11 }))),
            "6\t0\tA11\n",
        ),
        (
            7,
            Ok(Reply::Answered(Answer::Quarter(Event::Finished { ticket: 9_999 }))),
            "7\t0\tF9999\n",
        ),
        (8, Err(Refusal::Late { ticket: 13 }), "8\t7\t13\n"),
        (
            99_999,
            Err(Refusal::Malformed { field: 1 }),
            "99999\t15\t1\n",
        ),
    ] {
        let line = ReplyLine { number, reply }.to_string(heap)?;
        assert_eq!(rt; line.as_str(), text);
    }
    Ok(())
}
