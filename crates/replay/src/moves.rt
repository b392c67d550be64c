// Bulk moves: a line hands over an order and three lengths, then the matrix and the vectors or points.
// The whole room of the output is compared, so that what a move leaves untouched is compared too.
use crate::answer::Written;
use crate::list::Line;
use crate::outcome::{Compared, Uncompared};
use crate::table::{Operation, Order};

// The most numbers of a matrix, an input or an output: 64 vectors of four, and a few more.
const FLAT: usize = 260;

// What stands in every place of the output before a move.
const MARK: f64 = 4321.0625;

// What a bulk line comes to.
pub(crate) fn replayed(
    mut line: Line<'_>,
    operation: Operation,
    order: Option<Order>,
) -> Result<Compared, Uncompared> {
    let handed = line.whole()?;
    let lengths = [line.whole()?, line.whole()?, line.whole()?];
    let mut matrix = [0.0; FLAT];
    let mut input = [0.0; FLAT];
    let mut output = [MARK; FLAT];
    let mut expected = [MARK; FLAT];
    let [m, n, k] = lengths;
    let matrix = first(&mut matrix, m)?;
    let input = first(&mut input, n)?;
    numbers(&mut line, matrix)?;
    numbers(&mut line, input)?;
    let theirs = stated(line, first(&mut expected, k)?)?;
    let ours = moved(operation, handed, matrix, input, first(&mut output, k)?);
    let same = ours == theirs && same(&output, &expected);
    Ok(Compared {
        operation,
        order,
        same,
    })
}

// As many of the room's first places, unless it has fewer.
fn first(room: &mut [f64], count: usize) -> Result<&mut [f64], Uncompared> {
    room.get_mut(..count).ok_or(Uncompared::NotRead)
}

// Fills these places with the numbers of the next words.
fn numbers(line: &mut Line<'_>, places: &mut [f64]) -> Result<(), Uncompared> {
    for place in places.iter_mut() {
        *place = bits::number(line.number()?);
    }
    Ok(())
}

// The move of what is handed over.
fn moved(
    operation: Operation,
    order: usize,
    matrix: &[f64],
    input: &[f64],
    output: &mut [f64],
) -> Result<(), Written> {
    match operation {
        Operation::MoveVectors => bulk::move_vectors(order, matrix, input, output),
        _ => bulk::move_points(order, matrix, input, output),
    }
    .map_err(Written::from)
}

// What the rest of the line says: '=' and the numbers of the output, or '!' and a refusal, where 0 says that there is none.
fn stated(mut line: Line<'_>, expected: &mut [f64]) -> Result<Result<(), Written>, Uncompared> {
    let answer = match line.sign()? {
        b'=' => {
            numbers(&mut line, expected)?;
            Ok(())
        }
        b'!' => match line.number()? {
            0 => Ok(()),
            refusal => Err(Written(refusal)),
        },
        _ => return Err(Uncompared::NotRead),
    };
    line.end()?;
    Ok(answer)
}

// Whether two outputs of one length are the same, bit for bit, any NaN the same as any NaN: == on f64 takes -0.0 for 0.0, and no NaN for itself.
fn same(a: &[f64], b: &[f64]) -> bool {
    a.iter().zip(b).all(|(a, b)| bits::same(*a, *b))
}
