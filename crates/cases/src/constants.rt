// Of the records' constants (document 01, 'Rules of the arithmetic') their orders, since the list has zero and identity; and the number
// and the place of each cause of a refusal (document 01, 'The numbers a refusal carries', and document 02, No. 1, 'Say column or row').
use crate::count::Cases;
use matrix::{Matrix2, Matrix3, Matrix4, SquareMatrix};
use std::io;
use vector::{Place, Refusal};

// Every case of this file.
pub(crate) fn run<R: Print>(cases: &mut Cases<'_, R>) -> io::Result<()> {
    orders(cases)?;
    refusals(cases)
}

// The order of each record.
fn orders<R: Print>(cases: &mut Cases<'_, R>) -> io::Result<()> {
    cases.case("Matrix2::order", Matrix2::ORDER == 2)?;
    cases.case("Matrix3::order", Matrix3::ORDER == 3)?;
    cases.case("Matrix4::order", Matrix4::ORDER == 4)
}

// The number and the place of each cause.
fn refusals<R: Print>(cases: &mut Cases<'_, R>) -> io::Result<()> {
    cases.case(
        "refusal 11, first",
        says(Refusal::Column(Place::First), 11, Some(Place::First)),
    )?;
    cases.case(
        "refusal 11, second",
        says(Refusal::Column(Place::Second), 11, Some(Place::Second)),
    )?;
    cases.case(
        "refusal 12, first",
        says(Refusal::Row(Place::First), 12, Some(Place::First)),
    )?;
    cases.case(
        "refusal 12, second",
        says(Refusal::Row(Place::Second), 12, Some(Place::Second)),
    )?;
    cases.case("refusal 2, no place", says(Refusal::Singular, 2, None))?;
    cases.case("refusal 3, no place", says(Refusal::InputLength, 3, None))?;
    cases.case("refusal 4, no place", says(Refusal::OutputLength, 4, None))?;
    cases.case("refusal 5, no place", says(Refusal::Order, 5, None))?;
    cases.case("refusal 6, no place", says(Refusal::NotWhole, 6, None))
}

// Whether a cause has this number and this place.
fn says(cause: Refusal, number: u32, place: Option<Place>) -> bool {
    cause.number() == number && cause.place() == place
}
