// Order 4 swaps of a matrix that is lent: document 01, 'Modules, leaves first', 3.
// Each calls the swap by value and stores what it gives; a refusal leaves the matrix as it was.
ghost use Rattle.std.specs.Prelude.{◌≡◌};
ghost use Rattle.vector.specs.Refusals.{outcome, done, leaves};
ghost use Rattle.matrix.specs.Places.{swap_rows4, swap_columns4, swap_elements4};

use crate::places::{Column, Matrix, Row};
use crate::records::Matrix4;
use vector::Refusal;

impl Matrix4 {
    // The matrix of the answer in place of this one; a refusal leaves it as it was.
    fn store(&mut self, answer: Result<Matrix4, Refusal>) -> Result<(), Refusal>
        ensures { (outcome result ≡ done (outcome answer)) × (self.new ≡ leaves self.old (outcome answer)) }
    {
        *self = answer?;
        Ok(())
    }

    // Rows a and b exchanged.
    pub fn swap_rows_mut(&mut self, a: Row, b: Row) -> Result<(), Refusal>
        ensures { (outcome result ≡ done (swap_rows4 self.old a b)) × (self.new ≡ leaves self.old (swap_rows4 self.old a b)) }
    {
        self.store(self.swap_rows(a, b))
    }

    // Columns a and b exchanged.
    pub fn swap_columns_mut(&mut self, a: Column, b: Column) -> Result<(), Refusal>
        ensures { (outcome result ≡ done (swap_columns4 self.old a b)) × (self.new ≡ leaves self.old (swap_columns4 self.old a b)) }
    {
        self.store(self.swap_columns(a, b))
    }

    // The entry in column ac, row ar and the one in column bc, row br exchanged.
    pub fn swap_elements_mut(
        &mut self,
        ac: Column,
        ar: Row,
        bc: Column,
        br: Row,
    ) -> Result<(), Refusal>
        ensures { (outcome result ≡ done (swap_elements4 self.old ac ar bc br)) × (self.new ≡ leaves self.old (swap_elements4 self.old ac ar bc br)) }
    {
        self.store(self.swap_elements(ac, ar, bc, br))
    }
}
