// Sums, scalar forms and products: document 01, 'Modules, leaves first', 4.
// What needs no field of a record is in VectorSpace; `map` and `zip` name the columns, and so stand once for each record.
ghost use Rattle.std.specs.Prelude.{◌≡◌};
ghost use Rattle.matrix.specs.Arithmetic.{map2, map3, map4, zip2, zip3, zip4};
ghost use Rattle.matrix.specs.Arithmetic.{combine4};

use crate::records::{Matrix2, Matrix3, Matrix4};
use vector::{Vector4, VectorSpace};

impl VectorSpace for Matrix2 {
    ghost map = { map2 };

    ghost zip = { zip2 };

    fn map<F: Fn(f64) -> f64 + Copy>(self, f: F) -> Matrix2 {
        Matrix2::from_cols(self.x.map(f), self.y.map(f))
    }

    fn zip<F: Fn(f64, f64) -> f64 + Copy>(self, other: Matrix2, f: F) -> Matrix2 {
        Matrix2::from_cols(self.x.zip(other.x, f), self.y.zip(other.y, f))
    }
}

impl VectorSpace for Matrix3 {
    ghost map = { map3 };

    ghost zip = { zip3 };

    fn map<F: Fn(f64) -> f64 + Copy>(self, f: F) -> Matrix3 {
        Matrix3::from_cols(self.x.map(f), self.y.map(f), self.z.map(f))
    }

    fn zip<F: Fn(f64, f64) -> f64 + Copy>(self, other: Matrix3, f: F) -> Matrix3 {
        Matrix3::from_cols(
            self.x.zip(other.x, f),
            self.y.zip(other.y, f),
            self.z.zip(other.z, f),
        )
    }
}

impl VectorSpace for Matrix4 {
    ghost map = { map4 };

    ghost zip = { zip4 };

    fn map<F: Fn(f64) -> f64 + Copy>(self, f: F) -> Matrix4 {
        Matrix4::from_cols(self.x.map(f), self.y.map(f), self.z.map(f), self.w.map(f))
    }

    fn zip<F: Fn(f64, f64) -> f64 + Copy>(self, other: Matrix4, f: F) -> Matrix4 {
        Matrix4::from_cols(
            self.x.zip(other.x, f),
            self.y.zip(other.y, f),
            self.z.zip(other.z, f),
            self.w.zip(other.w, f),
        )
    }
}

impl Matrix4 {
    // The left-to-right sum over k of column k times entry k of the vector.
    pub(crate) fn combine(self, v: Vector4) -> Vector4
        ensures { result ≡ combine4 self v }
    {
        Vector4::new(
            self.x.x * v.x + self.y.x * v.y + self.z.x * v.z + self.w.x * v.w,
            self.x.y * v.x + self.y.y * v.y + self.z.y * v.z + self.w.y * v.w,
            self.x.z * v.x + self.y.z * v.y + self.z.z * v.z + self.w.z * v.w,
            self.x.w * v.x + self.y.w * v.y + self.z.w * v.z + self.w.w * v.w,
        )
    }
}
