// The signed sum over the column orders: one loop over the table serves orders 2, 3 and 4, and the minors of order 1.
ghost use Rattle.std.specs.Prelude.{◌≡◌, take};
ghost use Rattle.vector.specs.Refusals.{outcome};
ghost use Rattle.matrix.specs.Places.{at};
ghost use Rattle.whole.specs.Order.{Order, down_rows, exact_signed_sum};
ghost use Rattle.engine.specs.Whole.{wholes};
ghost use Rattle.engine.specs.Engine.{signed_sum};

use crate::entries::Whole;
use crate::orders;
use crate::square::Square;
use vector::Refusal;

// The signed sum, or refusal 6.
#[tactic(auto, using(crate::proofs::Outcomes::same_sum), unfolding(crate::specs::Engine::taken))]
pub fn signed_sum<M: Square>(m: M) -> Result<i64, Refusal>
    ensures { outcome result ≡ signed_sum 1024 M.ORDER (at (M.array m)) }
{
    Ok(Whole::read(m)?.signed_sum())
}

impl Whole {
    // The signed sum over the orders of its columns.
    pub(crate) fn signed_sum(&self) -> i64
        ensures { result ≡ exact_signed_sum self.now.order (wholes self.now.numbers) }
    {
        let mut sum = 0;
        for order in orders::orders(self.order) {
            sum += order.1 * self.down_rows(order.0);
        }
        sum
    }

    // The product down its rows: row r takes the column at place r of the order.
    fn down_rows(&self, columns: [usize; 4]) -> i64
        requires { Order self.now.order (take self.now.order columns) }
        ensures { result ≡ down_rows (wholes self.now.numbers) (take self.now.order columns) }
    {
        let mut product = 1;
        // r numbers the row of the matrix and the place in the order.
        for r in 0..self.order {
            product *= self.numbers[columns[r]][r];
        }
        product
    }
}
