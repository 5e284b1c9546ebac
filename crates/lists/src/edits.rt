// What changes a list.
ghost use Rattle.lists.specs.Lists.{Appended, Wrote};
ghost use Rattle.std.specs.Prelude.{◌≡◌};

use crate::List;
use calls::Refusal;

// Writes the cell at the index, or refuses where there is none.
fn write_at<T: Copy>(cells: &mut [T], index: usize, x: T) -> Result<(), Refusal>
    ensures { Wrote index cells.old x result cells.new }
{
    if index >= cells.len() {
        return Err(Refusal::ListFull);
    }
    cells[index] = x;
    Ok(())
}

impl<'a, T: Copy> List<'a, T> {
    // Empties the list; the cells stay as they are.
    pub fn clear(&mut self)
        ensures lender { self.new.cells.ghost_name ≡ self.old.cells.ghost_name }
        ensures len { self.new.len ≡ 0 }
        ensures cells { self.new.cells.now ≡ self.old.cells.now }
    {
        self.len = 0;
    }

    // Puts the element at the end, or refuses where the cells are full.
    pub fn append(&mut self, x: T) -> Result<(), Refusal>
        ensures lender { self.new.cells.ghost_name ≡ self.old.cells.ghost_name }
        ensures list { Appended self.old.len self.old.cells.now x result self.new.len self.new.cells.now }
    {
        let len = self.len;
        write_at(self.cells, len, x)?;
        self.len = len + 1;
        Ok(())
    }
}
