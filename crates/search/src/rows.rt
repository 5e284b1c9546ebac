// Rows of the worktable: for each state 0, or one more than the latest time.
ghost use Rattle.std.specs.Prelude.{◌≡◌, ◌↔◌, true, ℕ, ◌+◌, ◌^◌, ◌<◌, ◌≤◌, length, MatchOption};
ghost use Rattle.search.specs.Rows.{Empty, Grew, In, KeepsOne, Pending, Since};

// A row of the worktable has room for every state that a rule can have. Its cells are numbers, since the caller's table is of numbers
// and is 0 after a search.
pub(crate) const ROW: usize = 512;

pub(crate) type Row = [u32; ROW];

// Keeps the time for the state, unless the row has a later one.
pub(crate) fn keep(row: &mut Row, state: u32, time: u32)
    requires state { state < 512 }
    requires time { time + 1 < 2 ^ 32 }
    ensures { Grew (KeepsOne state time) row.old row.new }
{
    if row[state as usize] <= time {
        row[state as usize] = time + 1;
    }
}

// Whether the row has no time.
pub(crate) fn is_empty(row: &Row) -> bool
    ensures { (result ≡ true) ↔ Empty row.now }
{
    row.iter().all(|latest| *latest == 0)
}

// Empties the row.
pub(crate) fn clear(row: &mut Row)
    ensures { Empty row.new }
{
    row.fill(0);
}

// Below, `states` is how many states the rule has: that it is no more than a row has cells is a clause, since a row knows of no rule.

// Which way a sweep goes.
#[derive(Clone, Copy)]
pub(crate) enum Way {
    Down,
    Up,
}

// A sweep over the states of a row: the state that it is at, and which way it goes.
#[derive(Clone, Copy)]
pub(crate) struct Sweep {
    pub state: usize,
    pub way: Way,
}

// Down to the last of the first so many states for which `row` has a later time than `done`. It goes by index, since std has no
// lemma of a `zip` that is gone through from the back.
fn down(row: &Row, done: &Row, states: usize) -> Option<Sweep>
    requires { states ≤ 512 }
    ensures { MatchOption result ((s : ℕ) → s < states → Pending row.now done.now s → ⊥) (λ next. (next.state < states) × Pending row.now done.now next.state) }
{
    for state in (0..states).rev() {
        if done[state] < row[state] {
            return Some(Sweep {
                state,
                way: Way::Down,
            });
        }
    }
    None
}

// The first place at which `row` has a later time than `done`.
fn first_pending(row: &[u32], done: &[u32]) -> Option<usize>
    requires { length row.now ≡ length done.now }
    ensures { MatchOption result ((s : ℕ) → s < length row.now → Pending row.now done.now s → ⊥) (λ s. (s < length row.now) × Pending row.now done.now s) }
{
    row.iter()
        .zip(done)
        .position(|(latest, done)| done < latest)
}

// Up to the first of the states from this one on for which `row` has a later time than `done`.
fn up(row: &Row, done: &Row, from: usize, states: usize) -> Option<Sweep>
    requires from { from ≤ states }
    requires states { states ≤ 512 }
    ensures { MatchOption result ((s : ℕ) → from ≤ s → s < states → Pending row.now done.now s → ⊥) (λ next. (next.state < states) × Pending row.now done.now next.state) }
{
    let ahead = first_pending(&row[from..states], &done[from..states])?;
    Some(Sweep {
        state: from + ahead,
        way: Way::Up,
    })
}

// The next state of the sweep for which `row` has a later time than `done`. Where there is none ahead, the sweep turns round at the end.
pub(crate) fn next_pending(row: &Row, done: &Row, states: usize, sweep: Sweep) -> Option<Sweep>
    requires sweep { sweep.state ≤ states }
    requires states { states ≤ 512 }
    ensures { MatchOption result ((s : ℕ) → s < states → Pending row.now done.now s → ⊥) (λ next. (next.state < states) × Pending row.now done.now next.state) }
{
    match sweep.way {
        Way::Down => { down(row, done, sweep.state).or_else(|| up(row, done, sweep.state, states)) }
        Way::Up => up(row, done, sweep.state, states).or_else(|| down(row, done, sweep.state)),
    }
}

// Leaves out the times before this one.
pub(crate) fn drop_before(row: &mut Row, time: u32)
    ensures { Since time row.old row.new }
{
    for latest in row.iter_mut() {
        if *latest <= time {
            *latest = 0;
        }
    }
}

// The latest time of the first so many states. It is 0 too where they have none, which is enough: a caller knows that they have one.
pub(crate) fn latest(row: &Row, states: u32) -> u32
    requires { states ≤ 512 }
    ensures most { (s t : ℕ) → s < states → In row.now s t → t ≤ result }
    ensures reached { (s t : ℕ) → s < states → In row.now s t → (u : ℕ) × (u < states) × In row.now u result }
{
    let most = row[..states as usize].iter().copied().max();
    most.unwrap_or(0).saturating_sub(1)
}
