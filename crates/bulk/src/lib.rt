// Bulk moves over lent slices: document 01, 'Modules, leaves first', 8.
// Every outcome of the two entries, and the whole output, equals its definition in specs/; neither relies on its caller.
#![tactic(auto)]

mod each;
mod flat;
mod load;
mod points;
mod vectors;

ghost use Rattle.std.specs.Prelude.{◌≡◌, ◌%◌, ◌≤◌};
ghost use Rattle.vector.specs.Refusals.{done, leaves, outcome};
ghost use Rattle.bulk.specs.Refusals.{lengths, move_fits};
ghost use Rattle.bulk.specs.Moves.{move_vectors, move_points};

use vector::Refusal;

// No order is above it.
const LARGEST: usize = 4;

// What is left over after whole vectors or points of this size; dividing by a constant is quicker.
fn left_over(input: usize, size: usize) -> usize
    requires { (2 ≤ size) × (size ≤ 4) }
    ensures { result ≡ input % size }
{
    match size {
        2 => input % 2,
        3 => input % 3,
        _ => input % 4,
    }
}

// Refusals 5, 3 and 4, the first that applies; vectors are as long as the order, points one number shorter. `short` is a number, since it is
// taken from the order.
#[tactic(auto, unfolding(crate::specs::Refusals::move_fits, crate::specs::Refusals::order_from, crate::specs::Refusals::number_is))]
fn check(
    short: usize,
    order: usize,
    matrix: usize,
    input: usize,
    output: usize,
) -> Result<(), Refusal>
    requires { short ≤ 1 }
    ensures { outcome result ≡ move_fits short order (lengths matrix input output) }
{
    if order < 2 + short {
        return Err(Refusal::Order);
    }
    if LARGEST < order {
        return Err(Refusal::Order);
    }
    if matrix != order * order {
        return Err(Refusal::InputLength);
    }
    if left_over(input, order - short) != 0 {
        return Err(Refusal::InputLength);
    }
    if output != input {
        return Err(Refusal::OutputLength);
    }
    Ok(())
}

// The matrix, a flat slice of its columns, times every vector, into the output.
pub fn move_vectors(
    order: usize,
    matrix: &[f64],
    vectors: &[f64],
    output: &mut [f64],
) -> Result<(), Refusal>
    ensures answers { outcome result ≡ done (move_vectors order matrix.now vectors.now output.old) }
    ensures writes { output.new ≡ leaves output.old (move_vectors order matrix.now vectors.now output.old) }
{
    check(0, order, matrix.len(), vectors.len(), output.len())?;
    vectors::move_each(order, matrix, vectors, output);
    Ok(())
}

// The matrix times every point extended by 1, without the last coordinate, into the output.
pub fn move_points(
    order: usize,
    matrix: &[f64],
    points: &[f64],
    output: &mut [f64],
) -> Result<(), Refusal>
    ensures answers { outcome result ≡ done (move_points order matrix.now points.now output.old) }
    ensures writes { output.new ≡ leaves output.old (move_points order matrix.now points.now output.old) }
{
    check(1, order, matrix.len(), points.len(), output.len())?;
    points::move_each(order, matrix, points, output);
    Ok(())
}
