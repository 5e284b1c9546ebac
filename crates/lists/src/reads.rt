// What tells of a list.
ghost use Rattle.lists.specs.Lists.{Element, Whole, content};
ghost use Rattle.std.specs.Prelude.{◌≡◌, length};

use crate::List;

// Reads the cell at the index, where it is one of the first `len`.
fn read_at<T: Copy>(cells: &[T], len: usize, index: usize) -> Option<T>
    ensures { Element (content len cells.now) index result }
{
    if index < len {
        cells.get(index).copied()
    } else {
        None
    }
}

impl<'a, T: Copy> List<'a, T> {
    // How many elements there are.
    pub fn len(&self) -> usize
        ensures answer { result ≡ self.now.len }
        ensures whole { Whole self.now.len self.now.cells.now → result ≡ length (content self.now.len self.now.cells.now) }
    {
        self.len
    }

    // The element at the index, or none past the length.
    pub fn get(&self, index: usize) -> Option<T>
        ensures { Element (content self.now.len self.now.cells.now) index result }
    {
        read_at(self.cells, self.len, index)
    }
}
