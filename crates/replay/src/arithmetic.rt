// Sums, scalar forms and products.
use crate::answer::{Answer, HasEntries, given};
use crate::table::Operation;
use crate::words::{Stated, Words};
use matrix::SquareMatrix;

// A sum, a scalar form or a product of a matrix of any order.
pub(crate) fn done<M>(operation: Operation, mut words: Words<'_>) -> Option<Answer>
where
    M: SquareMatrix + Stated + HasEntries,
    M::Column: Stated + HasEntries,
{
    let m: M = words.read();
    match operation {
        Operation::Add => given(m.add(words.read())),
        Operation::Sub => given(m.sub(words.read())),
        Operation::ScalarMul => given(m.scalar_mul(words.read())),
        Operation::ScalarDiv => given(m.scalar_div(words.read())),
        Operation::MulScalar => given(m.mul_scalar(words.read())),
        Operation::DivScalar => given(m.div_scalar(words.read())),
        Operation::Neg => given(m.neg()),
        Operation::Mul => given(m.mul(words.read())),
        Operation::MulVector => given(m.mul_vector(words.read())),
        _ => None,
    }
}
