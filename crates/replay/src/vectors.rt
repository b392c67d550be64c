// The operations of vectors.
use crate::answer::{Answer, HasEntries, answered, given};
use crate::table::Operation;
use crate::words::{Stated, Words};
use vector::{Vector, Vector3, Vector4, VectorSpace};

// An operation that vectors of every length have.
pub(crate) fn done<V: Vector + Stated + HasEntries>(
    operation: Operation,
    mut words: Words<'_>,
) -> Option<Answer> {
    let v: V = words.read();
    match operation {
        Operation::VectorAdd => given(v.add(words.read())),
        Operation::VectorSub => given(v.sub(words.read())),
        Operation::VectorScalarMul => given(v.scalar_mul(words.read())),
        Operation::VectorDot => given(v.dot(words.read())),
        _ => None,
    }
}

// An operation that vectors of three numbers have for themselves. In the list these alone are divided by a scalar.
pub(crate) fn own3(operation: Operation, mut words: Words<'_>) -> Option<Answer> {
    let v: Vector3 = words.read();
    match operation {
        Operation::VectorDivScalar => given(v.div_scalar(words.read())),
        Operation::VectorCross => given(v.cross(words.read())),
        _ => None,
    }
}

// An operation that vectors of four numbers have for themselves.
pub(crate) fn own4(operation: Operation, mut words: Words<'_>) -> Option<Answer> {
    let v: Vector4 = words.read();
    match operation {
        Operation::VectorTruncateN => answered(v.truncate_n(words.read())),
        _ => None,
    }
}
