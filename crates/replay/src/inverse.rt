// Determinants and inverses.
use crate::answer::{Answer, HasEntries, answered, given};
use crate::table::Operation;
use crate::words::{Stated, Words};
use matrix::{Invert, Matrix2};

// A determinant or an inverse of a matrix of any order.
pub(crate) fn done<M: Invert + Stated + HasEntries>(
    operation: Operation,
    mut words: Words<'_>,
) -> Option<Answer> {
    let m: M = words.read();
    match operation {
        Operation::Determinant => given(m.determinant()),
        Operation::Invert => answered(m.invert()),
        _ => None,
    }
}

// The planted determinant, which the list has of order 2 alone.
pub(crate) fn own2(operation: Operation, words: Words<'_>) -> Option<Answer> {
    match operation {
        Operation::Planted => done::<Matrix2>(Operation::Determinant, words),
        _ => None,
    }
}
