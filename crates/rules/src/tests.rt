// Sizes at the limits, walks, and numbers that are no states.
use super::*;

// The state after these quarters from the opening on, each spoiled or clean, or `None` where a fault is not permitted.
fn walk<R: Rule>(rule: &R, quarters: &[bool]) -> Option<u32> {
    let mut state = rule.opening();
    for spoiled in quarters {
        state = if *spoiled {
            rule.after_spoiled(state)?
        } else {
            rule.after_clean(state)?
        };
    }
    Some(state)
}

#[test]
fn sizes_and_openings_at_the_limits(rt: HostRuntime) {
    for (faults, size) in [(0, 1), (1, 2), (511, 512), (512, 0), (4294967295, 0)] {
        assert_eq!(rt; Count::new(faults).size(), size);
        assert_eq!(rt; Count::new(faults).opening(), size.saturating_sub(1));
    }
    for (quarters, size) in [(0, 0), (1, 1), (512, 512), (513, 0), (4294967295, 0)] {
        assert_eq!(rt; Gap::new(quarters).size(), size);
        assert_eq!(rt; Gap::new(quarters).opening(), size.saturating_sub(1));
    }
    for (quarters, size) in [(256, 512), (257, 0), (513, 0), (0, 0)] {
        let rule = Both::new(Count::new(1), Gap::new(quarters));
        assert_eq!(rt; rule.size(), size);
        assert_eq!(rt; rule.opening(), size.saturating_sub(1));
    }
}

#[test]
fn walks(rt: HostRuntime) {
    let count = Count::new(2);
    assert_eq!(rt; walk(&count, &[true, false, true]), Some(0));
    assert_eq!(rt; walk(&count, &[true, false, true, false, true]), None);
    let gap = Gap::new(3);
    assert_eq!(rt; walk(&gap, &[true, false, false, true]), Some(0));
    assert_eq!(rt; walk(&gap, &[true, false, true]), None);
    let both = Both::new(count, gap);
    assert_eq!(rt; walk(&both, &[false, true, false]), Some(4));
    assert_eq!(rt;
        walk(&both, &[true, false, false, true, false, false, true]),
        None
    );
    let pile = Both::new(both, Count::new(1));
    assert_eq!(rt; pile.size(), 18);
    assert_eq!(rt; walk(&pile, &[true, false, false]), Some(10));
    assert_eq!(rt; walk(&pile, &[true, false, false, true]), None);
}

#[test]
fn numbers_that_are_no_states(rt: HostRuntime) {
    assert_eq!(rt; Count::new(2).after_clean(3), None);
    assert_eq!(rt; Count::new(2).after_spoiled(3), None);
    assert_eq!(rt; Gap::new(3).after_clean(3), None);
    assert_eq!(rt; Gap::new(3).after_spoiled(4294967295), None);
    assert_eq!(rt; Both::new(Count::new(2), Gap::new(3)).after_clean(9), None);
    assert_eq!(rt;
        Both::new(Count::new(600), Gap::new(3)).after_spoiled(0),
        None
    );
}
