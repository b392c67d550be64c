// Document 01, 'Reference cases, both sides of each edge': the inverse that is run only. And the way there and back, which is two calls and so no line of the list.
use crate::count::Cases;
use matrix::{Invert, Matrix, Matrix2, Matrix4, SquareMatrix};
use std::io;
use vector::{Refusal, Vector4};

// A matrix of whole entries to 1024, of sum 2^41.
const STEEP: [[f64; 4]; 4] = [
    [593.0, 1022.0, 907.0, 1006.0],
    [847.0, 1010.0, -911.0, 921.0],
    [-471.0, 1021.0, 910.0, -994.0],
    [-766.0, 1008.0, -946.0, -1003.0],
];

// Every case of this file.
pub(crate) fn run<R: Print>(cases: &mut Cases<'_, R>) -> io::Result<()> {
    underflow(cases)?;
    past_the_limit(cases)
}

// The diagonal of 1e-200: the float determinant underflows to 0.
fn underflow<R: Print>(cases: &mut Cases<'_, R>) -> io::Result<()> {
    let m = Matrix2::new(1.0e-200, 0.0, 0.0, 1.0e-200);
    cases.case("determinant of 1e-200", bits::same(m.determinant(), 0.0))?;
    cases.case(
        "inverse of 1e-200 refused",
        m.invert() == Err(Refusal::Singular),
    )
}

// At order 4 a vector with entries to 64 comes back, and one with larger entries need not.
fn past_the_limit<R: Print>(cases: &mut Cases<'_, R>) -> io::Result<()> {
    let m = Matrix4::from_array(STEEP);
    cases.case("signed sum of 2^41", engine::signed_sum(m) == Ok(1 << 41))?;
    let near = Vector4::new(-64.0, -63.0, 64.0, 61.0);
    cases.case("there and back within 64", comes_back(m, near))?;
    let far = Vector4::new(-931.0, -941.0, 947.0, 923.0);
    cases.case("not back past 64", !comes_back(m, far))
}

// Whether the vector, moved by the matrix and back by its inverse, is the same vector; not so where there is no inverse.
fn comes_back(m: Matrix4, v: Vector4) -> bool {
    m.invert()
        .is_ok_and(|inverse| same(inverse.mul_vector(m.mul_vector(v)), v))
}

// Whether two vectors have the same entries, bit for bit, any NaN the same as any NaN: the derived == takes -0.0 for 0.0, and no NaN for itself.
fn same(a: Vector4, b: Vector4) -> bool {
    bits::same(a.x, b.x) && bits::same(a.y, b.y) && bits::same(a.z, b.z) && bits::same(a.w, b.w)
}
