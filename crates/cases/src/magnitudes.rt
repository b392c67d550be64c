// The magnitude of a whole number and the test for one bit, at their edges: the list has only what sums make of them.
use crate::count::Cases;
use std::io;

// Every case of this file.
pub(crate) fn run<R: Print>(cases: &mut Cases<'_, R>) -> io::Result<()> {
    magnitudes(cases)?;
    single_bits(cases)
}

// The magnitude, of the least whole number too.
fn magnitudes<R: Print>(cases: &mut Cases<'_, R>) -> io::Result<()> {
    cases.case("magnitude of -2^63", engine::magnitude(i64::MIN) == 1 << 63)?;
    cases.case("magnitude of -1", engine::magnitude(-1) == 1)?;
    cases.case("magnitude of 7", engine::magnitude(7) == 7)
}

// One bit, from the lowest to the highest; none, and two.
fn single_bits<R: Print>(cases: &mut Cases<'_, R>) -> io::Result<()> {
    cases.case("one_bit of 1", engine::one_bit(1))?;
    cases.case("one_bit of 2^63", engine::one_bit(1 << 63))?;
    cases.case("one_bit of 0, no", !engine::one_bit(0))?;
    cases.case("one_bit of 3, no", !engine::one_bit(3))
}
