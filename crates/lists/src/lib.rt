// One list over the caller's memory, for fault quarters and finish rows alike.

#![tactic(auto)]

ghost use Rattle.std.specs.Prelude.{◌≡◌};

mod edits;
mod reads;

// The first `len` cells hold the elements; the cells beyond belong to the caller.
// A rule of the project keeps the length beside a slice: the memory is the caller's, and nothing is allocated. That the length is within
// the cells is no ghost field, since a slice beside one cannot be lent to a function that writes: `append` keeps it.
#[derive(Drop)]
pub struct List<'a, T> {
    cells: &'a mut [T],
    len: usize,
}

impl<'a, T: Copy> List<'a, T> {
    // An empty list over the cells, which stay as they are.
    pub fn new(cells: &'a mut [T]) -> List<'a, T>
        ensures lender { result.cells.ghost_name ≡ cells.entry.ghost_name }
        ensures len { result.len ≡ 0 }
        ensures cells { result.cells.now ≡ cells.old }
    {
        List { cells, len: 0 }
    }
}

#[cfg(test)]
mod tests {
    use super::*;
    use calls::{Refusal, Row};

    #[test]
    fn fault_quarters(rt: HostRuntime) {
        let mut cells = [7u32; 3];
        let mut faults = List::new(&mut cells[0..2]);
        assert_eq!(rt; faults.len(), 0);
        assert_eq!(rt; faults.get(0), None);
        assert_eq!(rt; faults.append(40), Ok(()));
        assert_eq!(rt; faults.append(41), Ok(()));
        assert_eq!(rt; faults.append(42), Err(Refusal::ListFull));
        assert_eq!(rt; faults.len(), 2);
        assert_eq!(rt; faults.get(0), Some(40));
        assert_eq!(rt; faults.get(1), Some(41));
        assert_eq!(rt; faults.get(2), None);
        assert_eq!(rt; faults.get(usize::MAX), None);
        faults.clear();
        assert_eq!(rt; faults.len(), 0);
        assert_eq!(rt; faults.get(0), None);
        assert_eq!(rt; faults.append(43), Ok(()));
        assert_eq!(rt; faults.get(0), Some(43));
        assert_eq!(rt; cells, [43, 41, 7]);
    }

    #[test]
    fn finish_rows(rt: HostRuntime) {
        let mut cells = [Row {
            ticket: 0,
            quarter: 0,
        }; 1];
        let mut rows = List::new(&mut cells);
        assert_eq!(rt;
            rows.append(Row {
                ticket: 11,
                quarter: 4,
            }),
            Ok(())
        );
        let refused = rows.append(Row {
            ticket: 12,
            quarter: 8,
        });
        assert_eq!(rt; refused, Err(Refusal::ListFull));
        assert_eq!(rt;
            rows.get(0),
            Some(Row {
                ticket: 11,
                quarter: 4,
            })
        );
        assert_eq!(rt; rows.get(1), None);
    }

    #[test]
    fn no_cells(rt: HostRuntime) {
        let mut cells = [0u32; 0];
        let mut faults = List::new(&mut cells);
        assert_eq!(rt; faults.append(1), Err(Refusal::ListFull));
        assert_eq!(rt; faults.len(), 0);
    }
}
