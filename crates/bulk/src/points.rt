// Each point of a flat slice, moved by a matrix. What a point becomes is said by move_point3 and move_point4 alone.
ghost use Rattle.std.specs.Prelude.{◌≡◌, ◌-◌};
ghost use Rattle.bulk.specs.Groups.{each};
ghost use Rattle.bulk.specs.Refusals.{lengths_of, Fits};
ghost use Rattle.bulk.specs.Moves.{move_point, move_point3, move_point4};

use crate::each::make_over;
use crate::load;
use matrix::{Matrix3, Matrix4, SquareMatrix};
use vector::{Vector2, Vector3, Vector4};

// A point of order 3 (one function for each order: they name the records' fields): extended by 1, multiplied, the last coordinate of the answer dropped.
pub(crate) fn move_point3(m: Matrix3, p: Vector2) -> Vector2
    ensures { result ≡ move_point3 m p }
{
    let moved = m.mul_vector(Vector3::new(p.x, p.y, 1.0));
    Vector2::new(moved.x, moved.y)
}

// A point of order 4: extended by 1, multiplied, the last coordinate of the answer dropped.
pub(crate) fn move_point4(m: Matrix4, p: Vector3) -> Vector3
    ensures { result ≡ move_point4 m p }
{
    let moved = m.mul_vector(Vector4::new(p.x, p.y, p.z, 1.0));
    Vector3::new(moved.x, moved.y, moved.z)
}

// Points of an order whose lengths fit, by arms as in vectors.rt. That the lengths fit is asked here and there alone.
pub(crate) fn move_each(order: usize, matrix: &[f64], points: &[f64], output: &mut [f64])
    requires { Fits 1 order (lengths_of matrix.now points.now output.old) }
    ensures { output.new ≡ each (order - 1) (move_point order matrix.now) points.now }
{
    match order {
        3 => {
            let m = load::matrix3(matrix);
            make_over(|p| move_point3(m, p), points, output)
        }
        _ => {
            let m = load::matrix4(matrix);
            make_over(|p| move_point4(m, p), points, output)
        }
    }
}
