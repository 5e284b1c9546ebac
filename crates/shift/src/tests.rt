// Whole shifts, from their input to their output.
use crate::run::run;
use std::alloc::Global;
use std::test::Fail;

// What the shift writes for the input.
fn output(heap: Global, input: &[u8]) -> Result<Vec<u8>, Fail> {
    let mut output = Vec::new(heap);
    run(input, &mut output, heap)?;
    Ok(output)
}

// So many times the text.
fn repeated(heap: Global, text: &[u8], times: u32) -> Result<Vec<u8>, Fail> {
    let mut all = Vec::new(heap);
    for _ in 0..times {
        all.extend_from_slice(text)?;
    }
    Ok(all)
}

#[test]
fn short_shifts(rt: HostRuntime) -> Result<(), Fail> {
    for (input, expected) in [
        ("", ""),
        ("\n", "1\t15\t1\n"),
        ("P\nP\n", "1\t15\t1\n"),
        ("O\t-\t-\tH\nP\n", "1\t15\t3\n"),
        ("O\t512\t-\tH\nP\n", "1\t1\t0\n"),
        ("O\t-\t0\tH\nP\n", "1\t1\t0\n"),
        ("O\t1\t257\tE\nP\n", "1\t1\t0\n"),
        ("O\t1\t256\tE", "1\t0\t512\n"),
        ("O\t511\t-\tE\n", "1\t0\t512\n"),
        ("O\t-\t512\tE\n\n", "1\t0\t512\n2\t15\t1\n"),
        ("O\t0\t-\tH\nS\nP", "1\t0\t1\n2\t10\t0\n3\t0\tI0\n"),
        ("O\t1\t-\tH\r\n", "1\t15\t4\n"),
        ("O\t1\t-\tH\nP\r\nP\n", "1\t0\t2\n2\t15\t1\n3\t0\tI0\n"),
        (
            "O\t1\t-\tH\nB\t1\nW\t7\n\0\n\u{e9}\n",
            "1\t0\t2\n2\t15\t1\n3\t15\t1\n4\t15\t1\n5\t15\t1\n",
        ),
        (
            "O\t2\t3\tE\nS\nP\nS\nP\nS\nP\nP\nS\n",
            "1\t0\t9\n2\t0\tI0\n3\t0\tI0\n4\t10\t0\n5\t0\tI0\n6\t0\tI0\n7\t0\tI0\n8\t0\tI0\n9\t10\t0\n",
        ),
    ] {
        let written = output(rt.alloc(), input.as_bytes())?;
        assert_eq!(rt; written.as_slice(), expected.as_bytes(), "{}", input);
    }
    Ok(())
}

#[test]
fn the_clock_ends(rt: HostRuntime) -> Result<(), Fail> {
    let heap = rt.alloc();
    let mut input = b"O\t1\t-\tH\n".to_vec(heap)?;
    input.extend_from_slice(repeated(heap, b"P\n", 4_096)?.as_slice())?;
    input.extend_from_slice(b"P\nS\n")?;
    let written = output(heap, input.as_slice())?;
    assert!(rt; written.ends_with(b"\n4097\t0\tI0\n4098\t11\t0\n4099\t11\t0\n"));
    Ok(())
}

#[test]
fn at_most_99999_lines(rt: HostRuntime) -> Result<(), Fail> {
    let heap = rt.alloc();
    let mut input = b"O\t1\t-\tH\n".to_vec(heap)?;
    input.extend_from_slice(repeated(heap, b"\n", 100_000)?.as_slice())?;
    let written = output(heap, input.as_slice())?;
    assert!(rt; written.ends_with(b"\n99998\t15\t1\n99999\t15\t1\n"));
    Ok(())
}

#[test]
fn a_line_of_a_million_bytes(rt: HostRuntime) -> Result<(), Fail> {
    let heap = rt.alloc();
    let mut input = b"O\t1\t-\tH\nP\t".to_vec(heap)?;
    input.extend_from_slice(repeated(heap, b"7", 1_000_000)?.as_slice())?;
    input.extend_from_slice(b"\nP\n")?;
    let written = output(heap, input.as_slice())?;
    assert_eq!(rt;
        written.as_slice(),
        b"1\t0\t2\n2\t15\t1\n3\t0\tI0\n".as_slice()
    );
    Ok(())
}
