// A matrix of whole numbers: its order, and its entries column by column.
ghost use Rattle.report.specs.Entries.{SmallList};

// The orders that there are matrices of.
#[derive(Clone, Copy, Debug, PartialEq, Eq)]
pub(crate) enum Order {
    Two,
    Three,
    Four,
}

impl Order {
    ghost use Rattle.std.specs.Prelude.{◌≡◌};
    ghost use Rattle.report.specs.Grid.{size, IsOrder};

    // The order that a word is.
    pub(crate) fn of(word: &[u8]) -> Option<Order>
        ensures { IsOrder word.now result }
    {
        let [digit] = word else {
            return None;
        };
        match *digit {
            b'2' => Some(Order::Two),
            b'3' => Some(Order::Three),
            b'4' => Some(Order::Four),
            _ => None,
        }
    }

    // How many columns, and how many rows, a matrix of the order has.
    pub(crate) fn size(self) -> usize
        ensures { result ≡ size self }
    {
        match self {
            Order::Two => 2,
            Order::Three => 3,
            Order::Four => 4,
        }
    }
}

// The matrix: its entries are the first of the list, and small as all the others are.
#[derive(Clone, Copy)]
pub(crate) struct Grid {
    pub order: Order,
    pub entries: [i64; 16],
    ghost small: { SmallList 16 entries },
}

impl Grid {
    ghost use Rattle.std.specs.Prelude.{◌≡◌, ◌<◌};
    ghost use Rattle.report.specs.Grid.{order_in, matrix_in};

    // The entry at a column and a row. That they are below the order is asked for here and of whoever asks: it is a fact of one grid, so no type of a place could hold it.
    pub(crate) fn entry(&self, c: usize, r: usize) -> i64
        requires { (c < order_in self.now) × (r < order_in self.now) }
        ensures { result ≡ matrix_in self.now c r }
    {
        self.entries[c * self.order.size() + r]
    }
}
