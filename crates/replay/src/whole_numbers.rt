// The exact engine.
use crate::answer::{Answer, answered};
use crate::table::Operation;
use crate::words::{Stated, Words};
use engine::Square;

// A signed sum, whether it is undoable, or a cofactor of a matrix of any order.
pub(crate) fn done<M: Square + Stated>(
    operation: Operation,
    mut words: Words<'_>,
) -> Option<Answer> {
    let m: M = words.read();
    match operation {
        Operation::SignedSum => answered(engine::signed_sum(m)),
        Operation::Undoable => answered(engine::undoable(m)),
        Operation::Cofactor => answered(engine::cofactor(m, words.read(), words.read())),
        _ => None,
    }
}
