// The matrix records, their constants, arrays, builders and embeddings: document 01, 'Modules, leaves first', 2.
// What takes one argument for each entry or column, or means another thing at each order, stands once for each record: document 01,
// 'Which language form to use', wants the three records and names these constructors.
ghost use Rattle.std.specs.Prelude.{◌≡◌};
ghost use Rattle.matrix.specs.Records.{new2, new3, new4, matrix2, matrix3, matrix4};
ghost use Rattle.matrix.specs.Records.{from_value2, from_value3, from_value4};
ghost use Rattle.matrix.specs.Records.{from_translation3, from_translation4};
ghost use Rattle.matrix.specs.Records.{from_nonuniform_scale3, from_nonuniform_scale4};
ghost use Rattle.matrix.specs.Records.{embed23, embed24, embed34};

use crate::places::Matrix;
use crate::square::SquareMatrix;
use vector::{Vector2, Vector3, Vector4};

// A matrix of order 2, as its columns.
#[repr(C)]
#[derive(Clone, Copy, Debug, PartialEq)]
pub struct Matrix2 {
    // Column 0.
    pub x: Vector2,
    // Column 1.
    pub y: Vector2,
}

// A matrix of order 3, as its columns.
#[repr(C)]
#[derive(Clone, Copy, Debug, PartialEq)]
pub struct Matrix3 {
    // Column 0.
    pub x: Vector3,
    // Column 1.
    pub y: Vector3,
    // Column 2.
    pub z: Vector3,
}

// A matrix of order 4, as its columns.
#[repr(C)]
#[derive(Clone, Copy, Debug, PartialEq)]
pub struct Matrix4 {
    // Column 0.
    pub x: Vector4,
    // Column 1.
    pub y: Vector4,
    // Column 2.
    pub z: Vector4,
    // Column 3.
    pub w: Vector4,
}

impl Matrix2 {
    // The matrix of these entries, column by column.
    pub fn new(c0r0: f64, c0r1: f64, c1r0: f64, c1r1: f64) -> Matrix2
        ensures { result ≡ new2 c0r0 c0r1 c1r0 c1r1 }
    {
        Matrix2::from_cols(Vector2::new(c0r0, c0r1), Vector2::new(c1r0, c1r1))
    }

    // The matrix of these columns.
    pub fn from_cols(c0: Vector2, c1: Vector2) -> Matrix2
        ensures { result ≡ matrix2 c0 c1 }
    {
        Matrix2 { x: c0, y: c1 }
    }

    // Scales both coordinates by the value. The Rust has no such builder at order 2.
    pub fn from_scale(value: f64) -> Matrix2
        ensures { result ≡ from_value2 value }
    {
        Matrix2::from_value(value)
    }
}

impl Matrix3 {
    // The matrix of these entries, column by column.
    pub fn new(
        c0r0: f64,
        c0r1: f64,
        c0r2: f64,
        c1r0: f64,
        c1r1: f64,
        c1r2: f64,
        c2r0: f64,
        c2r1: f64,
        c2r2: f64,
    ) -> Matrix3
        ensures { result ≡ new3 c0r0 c0r1 c0r2 c1r0 c1r1 c1r2 c2r0 c2r1 c2r2 }
    {
        Matrix3::from_cols(
            Vector3::new(c0r0, c0r1, c0r2),
            Vector3::new(c1r0, c1r1, c1r2),
            Vector3::new(c2r0, c2r1, c2r2),
        )
    }

    // The matrix of these columns.
    pub fn from_cols(c0: Vector3, c1: Vector3, c2: Vector3) -> Matrix3
        ensures { result ≡ matrix3 c0 c1 c2 }
    {
        Matrix3 {
            x: c0,
            y: c1,
            z: c2,
        }
    }

    // Moves a point of the plane by the vector.
    pub fn from_translation(v: Vector2) -> Matrix3
        ensures { result ≡ from_translation3 v }
    {
        Matrix3::from_array([[1.0, 0.0, 0.0], [0.0, 1.0, 0.0], [v.x, v.y, 1.0]])
    }

    // Scales both coordinates of the plane by the value.
    pub fn from_scale(value: f64) -> Matrix3
        ensures { result ≡ from_nonuniform_scale3 value value }
    {
        Matrix3::from_nonuniform_scale(value, value)
    }

    // Scales each coordinate of the plane by its own value.
    pub fn from_nonuniform_scale(x: f64, y: f64) -> Matrix3
        ensures { result ≡ from_nonuniform_scale3 x y }
    {
        Matrix3::from_array([[x, 0.0, 0.0], [0.0, y, 0.0], [0.0, 0.0, 1.0]])
    }
}

impl Matrix4 {
    // The matrix of these entries, column by column.
    pub fn new(
        c0r0: f64,
        c0r1: f64,
        c0r2: f64,
        c0r3: f64,
        c1r0: f64,
        c1r1: f64,
        c1r2: f64,
        c1r3: f64,
        c2r0: f64,
        c2r1: f64,
        c2r2: f64,
        c2r3: f64,
        c3r0: f64,
        c3r1: f64,
        c3r2: f64,
        c3r3: f64,
    ) -> Matrix4
        ensures { result ≡ new4 c0r0 c0r1 c0r2 c0r3 c1r0 c1r1 c1r2 c1r3 c2r0 c2r1 c2r2 c2r3 c3r0 c3r1 c3r2 c3r3 }
    {
        Matrix4::from_cols(
            Vector4::new(c0r0, c0r1, c0r2, c0r3),
            Vector4::new(c1r0, c1r1, c1r2, c1r3),
            Vector4::new(c2r0, c2r1, c2r2, c2r3),
            Vector4::new(c3r0, c3r1, c3r2, c3r3),
        )
    }

    // The matrix of these columns.
    pub fn from_cols(c0: Vector4, c1: Vector4, c2: Vector4, c3: Vector4) -> Matrix4
        ensures { result ≡ matrix4 c0 c1 c2 c3 }
    {
        Matrix4 {
            x: c0,
            y: c1,
            z: c2,
            w: c3,
        }
    }

    // Moves a point of space by the vector.
    pub fn from_translation(v: Vector3) -> Matrix4
        ensures { result ≡ from_translation4 v }
    {
        Matrix4::from_array([
            [1.0, 0.0, 0.0, 0.0],
            [0.0, 1.0, 0.0, 0.0],
            [0.0, 0.0, 1.0, 0.0],
            [v.x, v.y, v.z, 1.0],
        ])
    }

    // Scales the three coordinates of space by the value.
    pub fn from_scale(value: f64) -> Matrix4
        ensures { result ≡ from_nonuniform_scale4 value value value }
    {
        Matrix4::from_nonuniform_scale(value, value, value)
    }

    // Scales each coordinate of space by its own value.
    pub fn from_nonuniform_scale(x: f64, y: f64, z: f64) -> Matrix4
        ensures { result ≡ from_nonuniform_scale4 x y z }
    {
        Matrix4::from_array([
            [x, 0.0, 0.0, 0.0],
            [0.0, y, 0.0, 0.0],
            [0.0, 0.0, z, 0.0],
            [0.0, 0.0, 0.0, 1.0],
        ])
    }
}

// A matrix of order 2 in the top left corner of the identity.
impl From<Matrix2> for Matrix3 {
    ghost from_gives = { λ m r. r ≡ embed23 m };

    fn from(m: Matrix2) -> Matrix3 {
        Matrix3::from_array([[m.x.x, m.x.y, 0.0], [m.y.x, m.y.y, 0.0], [0.0, 0.0, 1.0]])
    }
}

// A matrix of order 2 in the top left corner of the identity.
impl From<Matrix2> for Matrix4 {
    ghost from_gives = { λ m r. r ≡ embed24 m };

    fn from(m: Matrix2) -> Matrix4 {
        Matrix4::from_array([
            [m.x.x, m.x.y, 0.0, 0.0],
            [m.y.x, m.y.y, 0.0, 0.0],
            [0.0, 0.0, 1.0, 0.0],
            [0.0, 0.0, 0.0, 1.0],
        ])
    }
}

// A matrix of order 3 in the top left corner of the identity.
impl From<Matrix3> for Matrix4 {
    ghost from_gives = { λ m r. r ≡ embed34 m };

    fn from(m: Matrix3) -> Matrix4 {
        Matrix4::from_array([
            [m.x.x, m.x.y, m.x.z, 0.0],
            [m.y.x, m.y.y, m.y.z, 0.0],
            [m.z.x, m.z.y, m.z.z, 0.0],
            [0.0, 0.0, 0.0, 1.0],
        ])
    }
}
