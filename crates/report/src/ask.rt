// The exact engine, asked about a matrix whose entries stand in a list column by column.
ghost use Rattle.std.specs.Prelude.{◌≡◌, ◌+◌, ◌*◌, ◌<◌, ◌≤◌};
ghost use Rattle.vector.specs.Refusals.{outcome};
ghost use Rattle.whole.specs.Order.{exact_signed_sum};
ghost use Rattle.engine.specs.Engine.{cofactor_of};
ghost use Rattle.report.specs.Entries.{float_at, floats_from, array_of, number_in};
ghost use Rattle.report.specs.Grid.{order_in, matrix_in};

use crate::grid::{Grid, Order};
use matrix::{Column, Matrix, Matrix2, Matrix3, Matrix4, Row};
use vector::Refusal;

// The number at a place of the list, as a float.
fn float_at(grid: &Grid, i: usize) -> f64
    requires { i < 16 }
    ensures { result ≡ float_at grid.now.entries i }
{
    let z = grid.entries[i];
    std::num::nearest_i64_to_f64(z)
}

// As many numbers as N, from a place on.
fn column<const N: usize>(grid: &Grid, i: usize) -> [f64; N]
    requires { i + N ≤ 16 }
    ensures { result ≡ floats_from i N grid.now.entries }
{
    std::array::from_fn(|r| float_at(grid, i + r))
}

// The first numbers, in N columns.
fn array<const N: usize>(grid: &Grid) -> [[f64; N]; N]
    requires { N ≤ 4 }
    ensures { result ≡ array_of N grid.now.entries }
{
    std::array::from_fn(
        |c| -> [f64; N]
            requires { (c < N) × (N ≤ 4) }
            ensures { result ≡ floats_from (c * N) N grid.entry.now.entries }
        { column(grid, c * N) },
    )
}

// The number that an answer gives, or 0.
fn number(answer: Result<i64, Refusal>) -> i64
    ensures { result ≡ number_in (outcome answer) }
{
    answer.unwrap_or(0)
}

// The signed sum of a matrix. An arm for each order, here and in the next, since the order is a value and each order's matrix a type of its own.
pub(crate) fn signed_sum(grid: &Grid) -> i64
    ensures { result ≡ exact_signed_sum (order_in grid.now) (matrix_in grid.now) }
{
    match grid.order {
        Order::Two => number(engine::signed_sum(Matrix2::from_array(array(grid)))),
        Order::Three => number(engine::signed_sum(Matrix3::from_array(array(grid)))),
        Order::Four => number(engine::signed_sum(Matrix4::from_array(array(grid)))),
    }
}

// The cofactor of a place of a matrix.
pub(crate) fn cofactor(grid: &Grid, c: usize, r: usize) -> i64
    requires { (c < order_in grid.now) × (r < order_in grid.now) }
    ensures { result ≡ cofactor_of (order_in grid.now) (matrix_in grid.now) c r }
{
    let (c, r) = (Column(c), Row(r));
    match grid.order {
        Order::Two => number(engine::cofactor(Matrix2::from_array(array(grid)), c, r)),
        Order::Three => number(engine::cofactor(Matrix3::from_array(array(grid)), c, r)),
        Order::Four => number(engine::cofactor(Matrix4::from_array(array(grid)), c, r)),
    }
}
