// The moment that a board has reached.

// The clock and the rule's state at it.
#[derive(Clone, Copy, PartialEq, Eq, Debug)]
pub struct Moment {
    pub clock: u32,
    pub state: u32,
}
