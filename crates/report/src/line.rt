// What a line holds: an order and the entries of a matrix, or what is wrong with it.
ghost use Rattle.std.specs.Prelude.{◌≡◌, ◌*◌, length};
ghost use Rattle.report.specs.Words.{words};
ghost use Rattle.report.specs.Grid.{size};
ghost use Rattle.report.specs.Line.{entries_in, line_of, meant};

use crate::grid::{Grid, Order};
use crate::read;
use crate::read::Words;

// What is wrong with a line: no order, an order with another number of words behind it, or with a word at a place that is no whole number of magnitude at most 1024.
#[derive(Clone, Copy, Debug, PartialEq, Eq)]
pub(crate) enum Fault {
    NoOrder,
    OtherCount(Order),
    NotWhole(Order, usize),
}

// The matrix of the order, from as many words as it has entries. The arms are written out, since `ok_or` and `?` hide from the proof which word was met.
fn entries(order: Order, left: Words) -> Result<Grid, Fault>
    requires { length (words left.line.now) ≡ size order * size order }
    ensures { meant result ≡ entries_in (size order) (words left.entry.line.now) }
{
    let mut entries = [0i64; 16];
    for (place, word) in left.enumerate() {
        match read::entry(word) {
            Some(z) => entries[place] = z,
            None => return Err(Fault::NotWhole(order, place)),
        }
    }
    Ok(Grid { order, entries })
}

// What a line holds.
pub(crate) fn read_line(line: &[u8]) -> Result<Grid, Fault>
    ensures { meant result ≡ line_of line.now }
{
    let mut words = Words::of(line);
    let Some(first) = words.next() else {
        return Err(Fault::NoOrder);
    };
    let Some(order) = Order::of(first) else {
        return Err(Fault::NoOrder);
    };
    let n = order.size();
    if words.total(n * n + 1) != n * n {
        return Err(Fault::OtherCount(order));
    }
    entries(order, words)
}
