// One line of the list: our function does what the line names, and its answer is compared.
use crate::answer::{Answer, HasEntries};
use crate::list::Line;
use crate::outcome::{Compared, Uncompared};
use crate::table::{Operation, Order};
use crate::words::{Stated, Words};
use crate::{arithmetic, builders, inverse, moves, places, rotations, vectors, whole_numbers};
use engine::Square;
use matrix::{Invert, Matrix, Matrix2, Matrix3, Matrix4};

// What the line comes to.
pub(crate) fn replayed(line: &[u8]) -> Result<Compared, Uncompared> {
    let mut line = Line(line);
    let operation = Operation::named(line.word());
    let order = Order::stated(line.word());
    line.word();
    match operation {
        Some(operation @ (Operation::MoveVectors | Operation::MovePoints)) => {
            moves::replayed(line, operation, order)
        }
        _ => single(line, operation, order),
    }
}

// What a line of one operation comes to.
fn single(
    mut line: Line<'_>,
    operation: Option<Operation>,
    order: Option<Order>,
) -> Result<Compared, Uncompared> {
    let words = line.numbers();
    let theirs = line.expected()?;
    let operation = operation.ok_or(Uncompared::NotKnown)?;
    // Where the line states no order the words are counted as at order 4.
    if words.len() != operation.reads(order.unwrap_or(Order::Four)) {
        return Err(Uncompared::NotRead);
    }
    let ours = order
        .and_then(|order| done(operation, order, Words(words.as_slice())))
        .ok_or(Uncompared::NotKnown)?;
    Ok(Compared {
        operation,
        order,
        same: ours == theirs,
    })
}

// The operation of this order, done by our function, if there is one.
fn done(operation: Operation, order: Order, words: Words<'_>) -> Option<Answer> {
    match order {
        Order::Two => shared::<Matrix2, 2>(operation, words).or(own2(operation, words)),
        Order::Three => shared::<Matrix3, 3>(operation, words).or(own3(operation, words)),
        Order::Four => shared::<Matrix4, 4>(operation, words).or(own4(operation, words)),
    }
}

// An operation that each order has, of whichever group has it: one of them at most, so all are asked.
fn shared<M, const N: usize>(operation: Operation, words: Words<'_>) -> Option<Answer>
where
    M: Matrix<N> + Invert + Square + Stated + HasEntries,
    M::Column: Stated + HasEntries,
{
    vectors::done::<M::Column>(operation, words)
        .or(builders::done::<M, N>(operation, words))
        .or(places::done::<M, N>(operation, words))
        .or(arithmetic::done::<M>(operation, words))
        .or(inverse::done::<M>(operation, words))
        .or(whole_numbers::done::<M>(operation, words))
}

// An operation that order 2 has for itself. These three, and what they call of the groups, are one for each order: what is done there
// is in no trait, since no two orders have the same of it.
fn own2(operation: Operation, words: Words<'_>) -> Option<Answer> {
    builders::own2(operation, words)
        .or(rotations::own2(operation, words))
        .or(inverse::own2(operation, words))
}

// An operation that order 3 has for itself.
fn own3(operation: Operation, words: Words<'_>) -> Option<Answer> {
    vectors::own3(operation, words)
        .or(builders::own3(operation, words))
        .or(rotations::done::<Matrix3>(operation, words))
}

// An operation that order 4 has for itself.
fn own4(operation: Operation, words: Words<'_>) -> Option<Answer> {
    vectors::own4(operation, words)
        .or(builders::own4(operation, words))
        .or(rotations::done::<Matrix4>(operation, words))
}
