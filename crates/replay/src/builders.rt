// Builders, arrays both ways and embeddings.
use crate::answer::{Answer, HasEntries, given};
use crate::table::Operation;
use crate::words::{Stated, Words};
use matrix::{Matrix, Matrix2, Matrix3, Matrix4};

// A builder of a matrix of any order. A matrix is read by its `from_cols`; the array is what `into_array` gives of it.
pub(crate) fn done<M, const N: usize>(operation: Operation, mut words: Words<'_>) -> Option<Answer>
where
    M: Matrix<N> + Stated + HasEntries,
    M::Column: Stated,
{
    let result: M = match operation {
        Operation::Zero => M::ZERO,
        Operation::Identity => M::IDENTITY,
        Operation::FromCols => words.read(),
        Operation::FromArray | Operation::IntoArray => {
            let m: M = words.read();
            M::from_array(m.into_array())
        }
        Operation::FromValue => M::from_value(words.read()),
        Operation::FromDiagonal => M::from_diagonal(words.read()),
        _ => return None,
    };
    given(result)
}

// A builder that order 2 has for itself.
pub(crate) fn own2(operation: Operation, mut words: Words<'_>) -> Option<Answer> {
    match operation {
        Operation::New => given(new2(words)),
        Operation::FromScale => given(Matrix2::from_scale(words.read())),
        _ => None,
    }
}

// The matrix of order 2 of its entries, one by one.
fn new2(mut words: Words<'_>) -> Matrix2 {
    let [[c0r0, c0r1], [c1r0, c1r1]]: [[f64; 2]; 2] = words.read();
    Matrix2::new(c0r0, c0r1, c1r0, c1r1)
}

// A builder that order 3 has for itself.
pub(crate) fn own3(operation: Operation, mut words: Words<'_>) -> Option<Answer> {
    let result = match operation {
        Operation::New => new3(words),
        Operation::FromScale => Matrix3::from_scale(words.read()),
        Operation::FromNonuniformScale => Matrix3::from_nonuniform_scale(
            words.read(),
            words.read(),
        ),
        Operation::FromTranslation => Matrix3::from_translation(words.read()),
        Operation::FromMatrix2 => Matrix3::from(words.read::<Matrix2>()),
        _ => return None,
    };
    given(result)
}

// The matrix of order 3 of its entries, one by one.
fn new3(mut words: Words<'_>) -> Matrix3 {
    let [[c0r0, c0r1, c0r2], [c1r0, c1r1, c1r2], [c2r0, c2r1, c2r2]]: [[f64; 3]; 3] = words.read();
    Matrix3::new(c0r0, c0r1, c0r2, c1r0, c1r1, c1r2, c2r0, c2r1, c2r2)
}

// A builder that order 4 has for itself.
pub(crate) fn own4(operation: Operation, mut words: Words<'_>) -> Option<Answer> {
    let result = match operation {
        Operation::New => new4(words),
        Operation::FromScale => Matrix4::from_scale(words.read()),
        Operation::FromNonuniformScale => Matrix4::from_nonuniform_scale(
            words.read(),
            words.read(),
            words.read(),
        ),
        Operation::FromTranslation => Matrix4::from_translation(words.read()),
        Operation::FromMatrix2 => Matrix4::from(words.read::<Matrix2>()),
        Operation::FromMatrix3 => Matrix4::from(words.read::<Matrix3>()),
        _ => return None,
    };
    given(result)
}

// The matrix of order 4 of its entries, one by one.
fn new4(mut words: Words<'_>) -> Matrix4 {
    let [
        [c0r0, c0r1, c0r2, c0r3],
        [c1r0, c1r1, c1r2, c1r3],
        [c2r0, c2r1, c2r2, c2r3],
        [c3r0, c3r1, c3r2, c3r3],
    ]: [[f64; 4]; 4] = words.read();
    Matrix4::new(
        c0r0, c0r1, c0r2, c0r3, c1r0, c1r1, c1r2, c1r3, c2r0, c2r1, c2r2, c2r3, c3r0, c3r1, c3r2,
        c3r3,
    )
}
