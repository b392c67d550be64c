// The column orders with their signs.
ghost use Rattle.std.specs.Prelude.{◌≡◌, ◌≤◌, take};
ghost use Rattle.whole.specs.Claim.{factorial};
ghost use Rattle.engine.specs.Orders.{rows};

// An order of four columns, and its sign: row r takes the column at place r.
#[derive(Clone, Copy, Debug, PartialEq, Eq)]
pub(crate) struct Order(pub [usize; 4], pub i64);

// The orders of four columns. The first n! of them are the orders of the first n columns, followed by the others in their places.
const ORDERS: [Order; 24] = [
    Order([0, 1, 2, 3], 1),
    Order([1, 0, 2, 3], -1),
    Order([0, 2, 1, 3], -1),
    Order([2, 0, 1, 3], 1),
    Order([1, 2, 0, 3], 1),
    Order([2, 1, 0, 3], -1),
    Order([0, 1, 3, 2], -1),
    Order([1, 0, 3, 2], 1),
    Order([0, 3, 1, 2], 1),
    Order([3, 0, 1, 2], -1),
    Order([1, 3, 0, 2], -1),
    Order([3, 1, 0, 2], 1),
    Order([0, 2, 3, 1], 1),
    Order([2, 0, 3, 1], -1),
    Order([0, 3, 2, 1], -1),
    Order([3, 0, 2, 1], 1),
    Order([2, 3, 0, 1], 1),
    Order([3, 2, 0, 1], -1),
    Order([1, 2, 3, 0], -1),
    Order([2, 1, 3, 0], 1),
    Order([1, 3, 2, 0], 1),
    Order([3, 1, 2, 0], -1),
    Order([2, 3, 1, 0], -1),
    Order([3, 2, 1, 0], 1),
];

// The orders of n columns: the first n! rows of the table.
#[tactic(auto, using(crate::proofs::Table::few_rows), unfolding(crate::specs::Orders::rows))]
pub(crate) fn orders(n: usize) -> &'static [Order]
    requires { n ≤ 4 }
    ensures { result.now ≡ take (factorial n) rows }
{
    &ORDERS[..row_count(n)]
}

// How many orders n columns have.
fn row_count(n: usize) -> usize
    requires { n ≤ 4 }
    ensures { result ≡ factorial n }
{
    match n {
        0 | 1 => 1,
        2 => 2,
        3 => 6,
        _ => 24,
    }
}
