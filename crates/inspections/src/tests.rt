// What the two inspections answer.
use super::*;

#[test]
fn verdicts(rt: HostRuntime) {
    for (length, first_fault, at_end, at_fault) in [
        (4, 0, 0, 0),
        (4, 1, 4, 1),
        (4, 3, 4, 3),
        (4, 4, 4, 4),
        (4, 5, 0, 0),
        (0, 0, 0, 0),
        (4294967295, 4294967295, 4294967295, 4294967295),
    ] {
        assert_eq!(rt; AtEnd.given_up_after(length, first_fault), at_end);
        assert_eq!(rt; AtFault.given_up_after(length, first_fault), at_fault);
    }
    assert_eq!(rt; <AtEnd as Inspection>::sign(), 'H');
    assert_eq!(rt; <AtFault as Inspection>::sign(), 'E');
}
