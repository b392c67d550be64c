// Each vector of a flat slice, times a matrix.
ghost use Rattle.std.specs.Prelude.{◌≡◌};
ghost use Rattle.bulk.specs.Groups.{each};
ghost use Rattle.bulk.specs.Refusals.{lengths_of, Fits};
ghost use Rattle.bulk.specs.Moves.{move_vector};

use crate::each::make_over;
use crate::load;
use matrix::SquareMatrix;

// Vectors of an order whose lengths fit. The arms differ in the record alone: the order is a number, and a closure takes one type.
pub(crate) fn move_each(order: usize, matrix: &[f64], vectors: &[f64], output: &mut [f64])
    requires { Fits 0 order (lengths_of matrix.now vectors.now output.old) }
    ensures { output.new ≡ each order (move_vector order matrix.now) vectors.now }
{
    match order {
        2 => {
            let m = load::matrix2(matrix);
            make_over(|v| m.mul_vector(v), vectors, output)
        }
        3 => {
            let m = load::matrix3(matrix);
            make_over(|v| m.mul_vector(v), vectors, output)
        }
        _ => {
            let m = load::matrix4(matrix);
            make_over(|v| m.mul_vector(v), vectors, output)
        }
    }
}
