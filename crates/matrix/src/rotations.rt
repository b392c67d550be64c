// Rotations with the sine s and the cosine c handed in: document 01, 'Modules, leaves first', 6.
ghost use Rattle.std.specs.Prelude.{◌≡◌};
ghost use Rattle.matrix.specs.Rotations.{from_angle2, from_angle_x3, from_angle_y3, from_angle_z3, from_axis_angle3};
ghost use Rattle.matrix.specs.Records.{embed34};
ghost use Rattle.matrix.specs.declared.records.Matrix3.{Matrix3};

use crate::places::Matrix;
use crate::records::{Matrix2, Matrix3, Matrix4};
use vector::Vector3;

impl Matrix2 {
    // A rotation of the plane.
    pub fn from_angle(s: f64, c: f64) -> Matrix2
        ensures { result ≡ from_angle2 s c }
    {
        Matrix2::new(c, s, -s, c)
    }
}

// Rotations of space, at order 3 or, in the corner of the identity, at order 4.
pub trait Rotation: Copy {
    ghost of: { Matrix3 → Self };

    // The rotation that is this one at order 3.
    fn of(m: Matrix3) -> Self
        ensures { result ≡ of m };

    // A rotation around the x axis.
    fn from_angle_x(s: f64, c: f64) -> Self
        ensures { result ≡ of (from_angle_x3 s c) }
    {
        Self::of(Matrix3::from_array([[1.0, 0.0, 0.0], [0.0, c, s], [0.0, -s, c]]))
    }

    // A rotation around the y axis.
    fn from_angle_y(s: f64, c: f64) -> Self
        ensures { result ≡ of (from_angle_y3 s c) }
    {
        Self::of(Matrix3::from_array([[c, 0.0, -s], [0.0, 1.0, 0.0], [s, 0.0, c]]))
    }

    // A rotation around the z axis.
    fn from_angle_z(s: f64, c: f64) -> Self
        ensures { result ≡ of (from_angle_z3 s c) }
    {
        Self::of(Matrix3::from_array([[c, s, 0.0], [-s, c, 0.0], [0.0, 0.0, 1.0]]))
    }

    // A rotation around an axis, which is taken as it is, whatever its length.
    fn from_axis_angle(axis: Vector3, s: f64, c: f64) -> Self
        ensures { result ≡ of (from_axis_angle3 axis s c) }
    {
        let one_sub_c = 1.0 - c;
        Self::of(Matrix3::from_array([
            [
                one_sub_c * axis.x * axis.x + c,
                one_sub_c * axis.x * axis.y + s * axis.z,
                one_sub_c * axis.x * axis.z - s * axis.y,
            ],
            [
                one_sub_c * axis.x * axis.y - s * axis.z,
                one_sub_c * axis.y * axis.y + c,
                one_sub_c * axis.y * axis.z + s * axis.x,
            ],
            [
                one_sub_c * axis.x * axis.z + s * axis.y,
                one_sub_c * axis.y * axis.z - s * axis.x,
                one_sub_c * axis.z * axis.z + c,
            ],
        ]))
    }
}

impl Rotation for Matrix3 {
    ghost of = { λ m. m };

    fn of(m: Matrix3) -> Matrix3 {
        m
    }
}

impl Rotation for Matrix4 {
    ghost of = { embed34 };

    fn of(m: Matrix3) -> Matrix4 {
        Matrix4::from(m)
    }
}
