// The matrix of a flat slice of numbers. One for each order: N columns as chunks test the length again, and a move of one vector of
// order 2 takes a tenth longer.
ghost use Rattle.std.specs.Prelude.{◌≡◌, length};
ghost use Rattle.bulk.specs.Moves.{flat2, flat3, flat4};

use crate::flat::Flat;
use matrix::{Matrix2, Matrix3, Matrix4};

// The matrix of order 2 whose columns stand in the slice.
#[tactic(auto, unfolding(crate::specs::Moves::flat2))]
pub(crate) fn matrix2(s: &[f64]) -> Matrix2
    requires { length s.now ≡ 4 }
    ensures { result ≡ flat2 s.now }
{
    Matrix2::from_cols(Flat::at(s, 0), Flat::at(s, 2))
}

// The matrix of order 3 whose columns stand in the slice.
#[tactic(auto, using(crate::proofs::Groups::columns3))]
pub(crate) fn matrix3(s: &[f64]) -> Matrix3
    requires { length s.now ≡ 9 }
    ensures { result ≡ flat3 s.now }
{
    Matrix3::from_cols(Flat::at(s, 0), Flat::at(s, 3), Flat::at(s, 6))
}

// The matrix of order 4 whose columns stand in the slice.
#[tactic(auto, using(crate::proofs::Groups::columns4))]
pub(crate) fn matrix4(s: &[f64]) -> Matrix4
    requires { length s.now ≡ 16 }
    ensures { result ≡ flat4 s.now }
{
    Matrix4::from_cols(
        Flat::at(s, 0),
        Flat::at(s, 4),
        Flat::at(s, 8),
        Flat::at(s, 12),
    )
}
