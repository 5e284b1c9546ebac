// Many clean quarters at once: a row has for each state the state after so many of them.
ghost use Rattle.std.specs.Prelude.{◌≡◌, ℕ, ◌+◌, ◌^◌, ◌<◌, ◌≤◌};
ghost use Rattle.search.specs.Powers.{Leads, Powers};
ghost use Rattle.rules.specs.Model.{cleans};

use crate::rows::Row;
use rules::Rule;
use std::alloc::AllocError;

// So many rows reach past the longest run.
pub(crate) const POWERS: usize = 7;

// The first row: one clean quarter, of each state that the rule has.
fn one_clean<R: Rule>(rule: &R, row: &mut Row)
    ensures { Leads (R.Rule.model rule.now) 0 row.new }
{
    for state in 0..rule.size() {
        if let Some(after) = rule.after_clean(state) {
            row[state as usize] = after;
        }
    }
}

// One row more: from each state on to where the row before leads, and from there on once more. It writes at the place of an `enumerate`:
// of a zipped `iter_mut` std tells a proof nothing.
fn twice_as_many<R: Rule>(rule: &R, before: &Row, row: &mut Row)
    requires { (k : ℕ) × Leads (R.Rule.model rule.now) k before.now }
    ensures { (k : ℕ) → Leads (R.Rule.model rule.now) k before.now → Leads (R.Rule.model rule.now) (k + 1) row.new }
{
    let halves = &before[..rule.size() as usize];
    for (state, half) in halves.iter().enumerate() {
        row[state] = before[*half as usize];
    }
}

// Fills the rows for 1, 2, 4, .. 64 clean quarters. A row is written from the one before it, so that they are parted at the power.
fn fill<R: Rule>(rule: &R, rows: &mut [Row; POWERS])
    ensures { Powers (R.Rule.model rule.now) rows.new }
{
    one_clean(rule, &mut rows[0]);
    for power in 1..POWERS {
        let (done, rest) = rows.split_at_mut(power);
        twice_as_many(rule, &done[power - 1], &mut rest[0]);
    }
}

// A rule, with the rows for 1, 2, 4, .. 64 of its clean quarters.
pub(crate) struct CleanQuarters<'a, R: Rule> {
    pub rule: &'a R,
    rows: &'a [Row; POWERS],
    ghost filled: { Powers (R.Rule.model rule.now) rows.now },
    ghost small: { (R.Rule.model rule.now).size ≤ 512 },
}

// By hand: a derive asks `Clone` and `Copy` of `R`, and `derive_where` takes no `Clone` beside a ghost field.
impl<R: Rule> Clone for CleanQuarters<'_, R> {
    fn clone(&self) -> Result<Self, AllocError> {
        Ok(*self)
    }
}

impl<R: Rule> Copy for CleanQuarters<'_, R> {}

// That a state is one of the rule's is a clause: a type for it would hold the rule beside each state.
impl<'a, R: Rule> CleanQuarters<'a, R> {
    // The rows go into this memory.
    pub(crate) fn new(rule: &'a R, rows: &'a mut [Row; POWERS]) -> Self
        ensures { result.rule.now ≡ rule.now }
    {
        fill(rule, rows);
        CleanQuarters { rule, rows }
    }

    // The state after one clean quarter.
    pub(crate) fn after_clean(&self, state: u32) -> u32
        requires { state < (R.Rule.model self.now.rule.now).size }
        ensures leads { result ≡ (R.Rule.model self.now.rule.now).clean state }
        ensures inside { result < (R.Rule.model self.now.rule.now).size }
    {
        self.rows[0][state as usize]
    }

    // The state after so many clean quarters, by the rows for 1, 2, 4, .. 64 of them, one behind the other.
    pub(crate) fn after_cleans(&self, state: u32, quarters: u32) -> u32
        requires state { state < (R.Rule.model self.now.rule.now).size }
        requires quarters { quarters < 128 }
        ensures leads { result ≡ cleans (R.Rule.model self.now.rule.now) quarters state }
        ensures inside { result < (R.Rule.model self.now.rule.now).size }
    {
        let rows = self.rows;
        let mut at = state;
        let mut left = quarters;
        for row in rows {
            if left % 2 == 1 {
                at = row[at as usize];
            }
            left /= 2;
        }
        at
    }

    // The state after any number of clean quarters, one by one.
    pub(crate) fn after_wait(&self, state: u32, quarters: u32) -> u32
        requires { state < (R.Rule.model self.now.rule.now).size }
        ensures leads { result ≡ cleans (R.Rule.model self.now.rule.now) quarters state }
        ensures inside { result < (R.Rule.model self.now.rule.now).size }
    {
        let mut at = state;
        for _quarter in 0..quarters {
            at = self.after_clean(at);
        }
        at
    }
}
