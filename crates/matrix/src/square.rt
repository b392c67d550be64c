// What the square matrices share, after the Rust's SquareMatrix: said once for every order. What names a record's fields stands once for each
// record, and the product of order 4 sums in another order than the others' (document 01, 'Rules of the arithmetic').
ghost use Rattle.std.specs.Prelude.{◌≡◌, ℕ, ◌≤◌, List, replicate, Float, refl};
ghost use Rattle.std.proofs.Common.{arith};
ghost use Rattle.matrix.specs.Records.{order2, order3, order4};
ghost use Rattle.matrix.specs.Records.{zero2, zero3, zero4, identity2, identity3, identity4};
ghost use Rattle.matrix.specs.Records.{array2, array3, array4, of_array2, of_array3, of_array4};
ghost use Rattle.matrix.specs.Records.{from_diagonal2, from_diagonal3, from_diagonal4};
ghost use Rattle.matrix.specs.Arithmetic.{mul2, mul3, mul4, mul_vector2, mul_vector3, mul_vector4};

use crate::places::Matrix;
use crate::records::{Matrix2, Matrix3, Matrix4};
use vector::{Vector, Vector2, Vector3, Vector4, VectorSpace};

// A matrix with as many rows as columns, as its columns.
pub trait SquareMatrix: VectorSpace {
    // A column, and a vector that the matrix moves.
    type Column: Vector;

    ghost ORDER: { ℕ };

    ghost ZERO: { Self };

    ghost IDENTITY: { Self };

    ghost array: { Self → List (List Float) };

    ghost of_array: { List (List Float) → Self };

    ghost from_diagonal: { Self.Column → Self };

    ghost mul_vector: { Self → Self.Column → Self.Column };

    ghost mul: { Self → Self → Self };

    // How many rows and columns it has.
    const ORDER: usize;

    // Every entry 0.
    const ZERO: Self;

    // 1 down the diagonal, 0 elsewhere.
    const IDENTITY: Self;

    // The vector down the diagonal, 0 elsewhere.
    fn from_diagonal(value: Self::Column) -> Self
        ensures { result ≡ from_diagonal value };

    // The value down the diagonal, 0 elsewhere.
    fn from_value(value: f64) -> Self
        ensures { result ≡ from_diagonal (Self.Column.of_entries (replicate Self.Column.LENGTH value)) }
    {
        Self::from_diagonal(Self::Column::from_value(value))
    }

    // Each row dot the vector.
    fn mul_vector(self, vector: Self::Column) -> Self::Column
        ensures { result ≡ mul_vector self vector };

    // The product.
    fn mul(self, other: Self) -> Self
        ensures { result ≡ mul self other };

    // The order is 2, 3 or 4, and a column has as many entries.
    ghost at_least: { 2 ≤ ORDER };

    ghost at_most: { ORDER ≤ 4 };

    ghost square: { Self.Column.LENGTH ≡ ORDER };

    // The array gives the matrix back.
    ghost there_and_back: { (m : Self) → of_array (array m) ≡ m };
}

// The constants stand on each record too, since the value of a constant can name these, and not those of a trait.
impl Matrix2 {
    // Every entry 0.
    pub const ZERO: Matrix2 = Matrix2 {
        x: Vector2 { x: 0.0, y: 0.0 },
        y: Vector2 { x: 0.0, y: 0.0 },
    };

    // 1 down the diagonal, 0 elsewhere.
    pub const IDENTITY: Matrix2 = Matrix2 {
        x: Vector2 { x: 1.0, y: 0.0 },
        y: Vector2 { x: 0.0, y: 1.0 },
    };
}

impl SquareMatrix for Matrix2 {
    type Column = Vector2;

    ghost ORDER = { order2 };

    ghost ZERO = { zero2 };

    ghost IDENTITY = { identity2 };

    ghost array = { array2 };

    ghost of_array = { of_array2 };

    ghost from_diagonal = { from_diagonal2 };

    ghost mul_vector = { mul_vector2 };

    ghost mul = { mul2 };

    ghost at_least = { omega arith };

    ghost at_most = { omega arith };

    ghost square = { refl };

    ghost there_and_back = { λ m. refl };

    const ORDER: usize = 2;

    const ZERO: Matrix2 = Matrix2::ZERO;

    const IDENTITY: Matrix2 = Matrix2::IDENTITY;

    fn from_diagonal(value: Vector2) -> Matrix2 {
        Matrix2::from_array([[value.x, 0.0], [0.0, value.y]])
    }

    fn mul_vector(self, vector: Vector2) -> Vector2 {
        let rows = self.transpose();
        Vector2::new(rows.x.dot(vector), rows.y.dot(vector))
    }

    // The product: each row of this matrix dot each column of the other.
    fn mul(self, other: Matrix2) -> Matrix2 {
        Matrix2::from_cols(self.mul_vector(other.x), self.mul_vector(other.y))
    }
}

impl Matrix3 {
    // Every entry 0.
    pub const ZERO: Matrix3 = Matrix3 {
        x: Vector3 {
            x: 0.0,
            y: 0.0,
            z: 0.0,
        },
        y: Vector3 {
            x: 0.0,
            y: 0.0,
            z: 0.0,
        },
        z: Vector3 {
            x: 0.0,
            y: 0.0,
            z: 0.0,
        },
    };

    // 1 down the diagonal, 0 elsewhere.
    pub const IDENTITY: Matrix3 = Matrix3 {
        x: Vector3 {
            x: 1.0,
            y: 0.0,
            z: 0.0,
        },
        y: Vector3 {
            x: 0.0,
            y: 1.0,
            z: 0.0,
        },
        z: Vector3 {
            x: 0.0,
            y: 0.0,
            z: 1.0,
        },
    };
}

impl SquareMatrix for Matrix3 {
    type Column = Vector3;

    ghost ORDER = { order3 };

    ghost ZERO = { zero3 };

    ghost IDENTITY = { identity3 };

    ghost array = { array3 };

    ghost of_array = { of_array3 };

    ghost from_diagonal = { from_diagonal3 };

    ghost mul_vector = { mul_vector3 };

    ghost mul = { mul3 };

    ghost at_least = { omega arith };

    ghost at_most = { omega arith };

    ghost square = { refl };

    ghost there_and_back = { λ m. refl };

    const ORDER: usize = 3;

    const ZERO: Matrix3 = Matrix3::ZERO;

    const IDENTITY: Matrix3 = Matrix3::IDENTITY;

    fn from_diagonal(value: Vector3) -> Matrix3 {
        Matrix3::from_array([
            [value.x, 0.0, 0.0],
            [0.0, value.y, 0.0],
            [0.0, 0.0, value.z],
        ])
    }

    fn mul_vector(self, vector: Vector3) -> Vector3 {
        let rows = self.transpose();
        Vector3::new(rows.x.dot(vector), rows.y.dot(vector), rows.z.dot(vector))
    }

    // The product: each row of this matrix dot each column of the other.
    fn mul(self, other: Matrix3) -> Matrix3 {
        Matrix3::from_cols(
            self.mul_vector(other.x),
            self.mul_vector(other.y),
            self.mul_vector(other.z),
        )
    }
}

impl Matrix4 {
    // Every entry 0.
    pub const ZERO: Matrix4 = Matrix4 {
        x: Vector4 {
            x: 0.0,
            y: 0.0,
            z: 0.0,
            w: 0.0,
        },
        y: Vector4 {
            x: 0.0,
            y: 0.0,
            z: 0.0,
            w: 0.0,
        },
        z: Vector4 {
            x: 0.0,
            y: 0.0,
            z: 0.0,
            w: 0.0,
        },
        w: Vector4 {
            x: 0.0,
            y: 0.0,
            z: 0.0,
            w: 0.0,
        },
    };

    // 1 down the diagonal, 0 elsewhere.
    pub const IDENTITY: Matrix4 = Matrix4 {
        x: Vector4 {
            x: 1.0,
            y: 0.0,
            z: 0.0,
            w: 0.0,
        },
        y: Vector4 {
            x: 0.0,
            y: 1.0,
            z: 0.0,
            w: 0.0,
        },
        z: Vector4 {
            x: 0.0,
            y: 0.0,
            z: 1.0,
            w: 0.0,
        },
        w: Vector4 {
            x: 0.0,
            y: 0.0,
            z: 0.0,
            w: 1.0,
        },
    };
}

impl SquareMatrix for Matrix4 {
    type Column = Vector4;

    ghost ORDER = { order4 };

    ghost ZERO = { zero4 };

    ghost IDENTITY = { identity4 };

    ghost array = { array4 };

    ghost of_array = { of_array4 };

    ghost from_diagonal = { from_diagonal4 };

    ghost mul_vector = { mul_vector4 };

    ghost mul = { mul4 };

    ghost at_least = { omega arith };

    ghost at_most = { omega arith };

    ghost square = { refl };

    ghost there_and_back = { λ m. refl };

    const ORDER: usize = 4;

    const ZERO: Matrix4 = Matrix4::ZERO;

    const IDENTITY: Matrix4 = Matrix4::IDENTITY;

    fn from_diagonal(value: Vector4) -> Matrix4 {
        Matrix4::from_array([
            [value.x, 0.0, 0.0, 0.0],
            [0.0, value.y, 0.0, 0.0],
            [0.0, 0.0, value.z, 0.0],
            [0.0, 0.0, 0.0, value.w],
        ])
    }

    fn mul_vector(self, vector: Vector4) -> Vector4 {
        let rows = self.transpose();
        Vector4::new(
            rows.x.dot(vector),
            rows.y.dot(vector),
            rows.z.dot(vector),
            rows.w.dot(vector),
        )
    }

    // The product: each column of the other combines the columns of this matrix.
    fn mul(self, other: Matrix4) -> Matrix4 {
        Matrix4::from_cols(
            self.combine(other.x),
            self.combine(other.y),
            self.combine(other.z),
            self.combine(other.w),
        )
    }
}
