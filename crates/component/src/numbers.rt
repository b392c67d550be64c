// What the rest of a component record says, in whole numbers, and the matrix of them: document 02, No. 2, 'Read component records'.
ghost use Rattle.std.specs.Prelude.{◌≡◌};
ghost use Rattle.component.specs.Record.{matrix_of};

use crate::bytes::f2dot14;
use matrix::Matrix3;
use vector::Vector3;

// The two offsets, in font units.
#[derive(Clone, Copy, Debug, PartialEq, Eq)]
pub struct Offsets {
    pub dx: i32,
    pub dy: i32,
}

// The linear part, in 16384ths.
#[derive(Clone, Copy, Debug, PartialEq, Eq)]
pub struct Scales {
    pub xscale: i32,
    pub scale01: i32,
    pub scale10: i32,
    pub yscale: i32,
}

// The columns (xscale, scale01, 0), (scale10, yscale, 0), (dx, dy, 1).
pub(crate) fn matrix_of(s: Scales, o: Offsets) -> Matrix3
    ensures { result ≡ matrix_of s o }
{
    Matrix3::from_cols(
        Vector3::new(f2dot14(s.xscale), f2dot14(s.scale01), 0.0),
        Vector3::new(f2dot14(s.scale10), f2dot14(s.yscale), 0.0),
        Vector3::new(f64::from(o.dx), f64::from(o.dy), 1.0),
    )
}
