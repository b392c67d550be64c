// Row, diagonal, transpose and the swaps.
use crate::answer::{Answer, HasEntries, answered, given};
use crate::table::Operation;
use crate::words::{Stated, Words};
use matrix::Matrix;

// A row, a diagonal, a transpose or a swap of a matrix of any order.
pub(crate) fn done<M, const N: usize>(operation: Operation, mut words: Words<'_>) -> Option<Answer>
where
    M: Matrix<N> + Stated + HasEntries,
    M::Column: HasEntries,
{
    let m: M = words.read();
    match operation {
        Operation::Row => answered(m.row(words.read())),
        Operation::Diagonal => given(m.diagonal()),
        Operation::Transpose => given(m.transpose()),
        Operation::SwapRows => answered(m.swap_rows(words.read(), words.read())),
        Operation::SwapColumns => answered(m.swap_columns(words.read(), words.read())),
        Operation::SwapElements => answered(m.swap_elements(
            words.read(),
            words.read(),
            words.read(),
            words.read(),
        )),
        _ => None,
    }
}
