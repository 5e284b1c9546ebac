// Tests of the search: the worked figures, boards at every limit, and small boards against a plain enumeration of every allowed list of faults.

#![tactic(auto)]

#[cfg(test)]
mod boards;
#[cfg(test)]
mod enumeration;
#[cfg(test)]
mod figures;
mod later;
#[cfg(test)]
mod limits;
#[cfg(test)]
mod small_boards;
mod tokens;
