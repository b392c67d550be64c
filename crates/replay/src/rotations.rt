// Rotations: the sine, the cosine, and the axis where there is one.
use crate::answer::{Answer, HasEntries, given};
use crate::table::Operation;
use crate::words::Words;
use matrix::{Matrix2, Rotation};

// A rotation of order 2.
pub(crate) fn own2(operation: Operation, mut words: Words<'_>) -> Option<Answer> {
    match operation {
        Operation::FromAngle => given(Matrix2::from_angle(words.read(), words.read())),
        _ => None,
    }
}

// A rotation of space, of order 3 or 4.
pub(crate) fn done<M: Rotation + HasEntries>(
    operation: Operation,
    mut words: Words<'_>,
) -> Option<Answer> {
    let [s, c]: [f64; 2] = words.read();
    let result: M = match operation {
        Operation::FromAngleX => M::from_angle_x(s, c),
        Operation::FromAngleY => M::from_angle_y(s, c),
        Operation::FromAngleZ => M::from_angle_z(s, c),
        Operation::FromAxisAngle => M::from_axis_angle(words.read(), s, c),
        _ => return None,
    };
    given(result)
}
