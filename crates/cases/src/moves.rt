// Bulk moves: each combination of a right and a wrong order, matrix, input and output. A refusal leaves the output as it was.
// Every number handed over is 1, so every number that is written is the order.
use crate::count::Cases;
use Move::{Points, Vectors};
use std::{fmt, io};

// How many numbers there are to hand over, and how many places in the output: as many as a byte can say.
const ROOM: usize = 255;

// What stands in the output before.
const BEFORE: f64 = 77.0;

// Which of the two moves.
#[derive(Clone, Copy)]
enum Move {
    Vectors,
    Points,
}

impl fmt::Display for Move {
    fn fmt<W: fmt::Write>(&self, f: &mut fmt::Formatter<W>) -> fmt::Result {
        match self {
            Vectors => write!(f, "move_vectors"),
            Points => write!(f, "move_points"),
        }
    }
}

// A case: the move, the order, how many numbers the matrix, the vectors or points and the output have, and the number of the refusal,
// as document 01 and the stored output have it.
#[derive(Clone, Copy)]
struct Row(Move, u8, u8, u8, u8, Option<u32>);

// Every case, a row each. The four of document 01, 'Reference cases, both sides of each edge', come first.
const ROWS: [Row; 108] = [
    Row(Vectors, 5, 25, 10, 10, Some(5)),
    Row(Vectors, 3, 8, 6, 6, Some(3)),
    Row(Vectors, 3, 9, 6, 5, Some(4)),
    Row(Vectors, 3, 9, 0, 0, None),
    Row(Vectors, 2, 4, 4, 4, None),
    Row(Vectors, 2, 4, 4, 3, Some(4)),
    Row(Vectors, 2, 4, 5, 5, Some(3)),
    Row(Vectors, 2, 4, 5, 4, Some(3)),
    Row(Vectors, 2, 3, 4, 4, Some(3)),
    Row(Vectors, 2, 3, 4, 3, Some(3)),
    Row(Vectors, 2, 3, 5, 5, Some(3)),
    Row(Vectors, 2, 3, 5, 4, Some(3)),
    Row(Vectors, 3, 9, 6, 6, None),
    Row(Vectors, 3, 9, 7, 7, Some(3)),
    Row(Vectors, 3, 9, 7, 6, Some(3)),
    Row(Vectors, 3, 8, 6, 5, Some(3)),
    Row(Vectors, 3, 8, 7, 7, Some(3)),
    Row(Vectors, 3, 8, 7, 6, Some(3)),
    Row(Vectors, 4, 16, 8, 8, None),
    Row(Vectors, 4, 16, 8, 7, Some(4)),
    Row(Vectors, 4, 16, 7, 7, Some(3)),
    Row(Vectors, 4, 16, 7, 6, Some(3)),
    Row(Vectors, 4, 15, 8, 8, Some(3)),
    Row(Vectors, 4, 15, 8, 7, Some(3)),
    Row(Vectors, 4, 15, 7, 7, Some(3)),
    Row(Vectors, 4, 15, 7, 6, Some(3)),
    Row(Vectors, 2, 4, 4, 5, Some(4)),
    Row(Vectors, 3, 9, 6, 7, Some(4)),
    Row(Vectors, 4, 16, 8, 9, Some(4)),
    Row(Vectors, 2, 4, 0, 0, None),
    Row(Vectors, 4, 16, 0, 0, None),
    Row(Vectors, 3, 9, 0, 1, Some(4)),
    Row(Vectors, 0, 0, 0, 0, Some(5)),
    Row(Vectors, 0, 0, 0, 1, Some(5)),
    Row(Vectors, 0, 0, 3, 3, Some(5)),
    Row(Vectors, 0, 0, 3, 4, Some(5)),
    Row(Vectors, 0, 4, 0, 0, Some(5)),
    Row(Vectors, 0, 4, 0, 1, Some(5)),
    Row(Vectors, 0, 4, 3, 3, Some(5)),
    Row(Vectors, 0, 4, 3, 4, Some(5)),
    Row(Vectors, 1, 1, 2, 2, Some(5)),
    Row(Vectors, 1, 1, 2, 1, Some(5)),
    Row(Vectors, 1, 1, 3, 3, Some(5)),
    Row(Vectors, 1, 1, 3, 2, Some(5)),
    Row(Vectors, 1, 2, 2, 2, Some(5)),
    Row(Vectors, 1, 2, 2, 1, Some(5)),
    Row(Vectors, 1, 2, 3, 3, Some(5)),
    Row(Vectors, 1, 2, 3, 2, Some(5)),
    Row(Vectors, 5, 25, 10, 9, Some(5)),
    Row(Vectors, 5, 25, 7, 7, Some(5)),
    Row(Vectors, 5, 25, 7, 6, Some(5)),
    Row(Vectors, 5, 24, 10, 10, Some(5)),
    Row(Vectors, 5, 24, 10, 9, Some(5)),
    Row(Vectors, 5, 24, 7, 7, Some(5)),
    Row(Vectors, 5, 24, 7, 6, Some(5)),
    Row(Points, 3, 9, 4, 4, None),
    Row(Points, 3, 9, 4, 3, Some(4)),
    Row(Points, 3, 9, 5, 5, Some(3)),
    Row(Points, 3, 9, 5, 4, Some(3)),
    Row(Points, 3, 8, 4, 4, Some(3)),
    Row(Points, 3, 8, 4, 3, Some(3)),
    Row(Points, 3, 8, 5, 5, Some(3)),
    Row(Points, 3, 8, 5, 4, Some(3)),
    Row(Points, 4, 16, 6, 6, None),
    Row(Points, 4, 16, 6, 5, Some(4)),
    Row(Points, 4, 16, 7, 7, Some(3)),
    Row(Points, 4, 16, 7, 6, Some(3)),
    Row(Points, 4, 15, 6, 6, Some(3)),
    Row(Points, 4, 15, 6, 5, Some(3)),
    Row(Points, 4, 15, 7, 7, Some(3)),
    Row(Points, 4, 15, 7, 6, Some(3)),
    Row(Points, 3, 9, 4, 5, Some(4)),
    Row(Points, 4, 16, 6, 7, Some(4)),
    Row(Points, 3, 9, 0, 0, None),
    Row(Points, 4, 16, 0, 0, None),
    Row(Points, 4, 16, 0, 1, Some(4)),
    Row(Points, 0, 0, 0, 0, Some(5)),
    Row(Points, 0, 0, 0, 1, Some(5)),
    Row(Points, 0, 0, 3, 3, Some(5)),
    Row(Points, 0, 0, 3, 4, Some(5)),
    Row(Points, 0, 4, 0, 0, Some(5)),
    Row(Points, 0, 4, 0, 1, Some(5)),
    Row(Points, 0, 4, 3, 3, Some(5)),
    Row(Points, 0, 4, 3, 4, Some(5)),
    Row(Points, 1, 1, 2, 2, Some(5)),
    Row(Points, 1, 1, 2, 1, Some(5)),
    Row(Points, 1, 1, 3, 3, Some(5)),
    Row(Points, 1, 1, 3, 2, Some(5)),
    Row(Points, 1, 2, 2, 2, Some(5)),
    Row(Points, 1, 2, 2, 1, Some(5)),
    Row(Points, 1, 2, 3, 3, Some(5)),
    Row(Points, 1, 2, 3, 2, Some(5)),
    Row(Points, 2, 4, 2, 2, Some(5)),
    Row(Points, 2, 4, 2, 1, Some(5)),
    Row(Points, 2, 4, 3, 3, Some(5)),
    Row(Points, 2, 4, 3, 2, Some(5)),
    Row(Points, 2, 3, 2, 2, Some(5)),
    Row(Points, 2, 3, 2, 1, Some(5)),
    Row(Points, 2, 3, 3, 3, Some(5)),
    Row(Points, 2, 3, 3, 2, Some(5)),
    Row(Points, 5, 25, 8, 8, Some(5)),
    Row(Points, 5, 25, 8, 7, Some(5)),
    Row(Points, 5, 25, 7, 7, Some(5)),
    Row(Points, 5, 25, 7, 6, Some(5)),
    Row(Points, 5, 24, 8, 8, Some(5)),
    Row(Points, 5, 24, 8, 7, Some(5)),
    Row(Points, 5, 24, 7, 7, Some(5)),
    Row(Points, 5, 24, 7, 6, Some(5)),
];

// Every row.
pub(crate) fn run<R: Print>(cases: &mut Cases<'_, R>) -> io::Result<()> {
    for row in &ROWS {
        row_case(cases, row)?;
    }
    Ok(())
}

// A row's case: its name, and whether the move does what the row says.
fn row_case<R: Print>(cases: &mut Cases<'_, R>, row: &Row) -> io::Result<()> {
    let Row(kind, order, matrix, input, output, refusal) = *row;
    let number = refusal.unwrap_or(0);
    let name = format_args!(
        "{kind}: order {order}, matrix of {matrix}, {input} in, {output} out, refusal {number}"
    );
    cases.case(name, holds(row))
}

// Whether a move does what its row says: done, with the order written to the whole output, or refused, with nothing written.
fn holds(row: &Row) -> bool {
    let Row(kind, order, matrix, input, output, refusal) = *row;
    let ones = [1.0; ROOM];
    let (matrix, input) = (&ones[..usize::from(matrix)], &ones[..usize::from(input)]);
    let mut out = [BEFORE; ROOM];
    let written = &mut out[..usize::from(output)];
    let answer = match kind {
        Vectors => bulk::move_vectors(usize::from(order), matrix, input, written),
        Points => bulk::move_points(usize::from(order), matrix, input, written),
    };
    match (answer, refusal) {
        (Ok(()), None) => leaves(&out, usize::from(output), f64::from(order)),
        (Err(cause), Some(number)) => cause.number() == number && leaves(&out, 0, BEFORE),
        _ => false,
    }
}

// Whether the first places hold this number, and the rest what stood there before.
fn leaves(out: &[f64; ROOM], written: usize, number: f64) -> bool {
    out.iter().take(written).all(|x| *x == number) && out.iter().skip(written).all(|x| *x == BEFORE)
}
