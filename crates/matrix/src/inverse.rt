// Determinants and inverses: document 01, 'Modules, leaves first', 5.
ghost use Rattle.std.specs.Prelude.{◌≡◌, Float};
ghost use Rattle.vector.specs.Arithmetic.{◌⊕◌, ◌⊖◌, ◌⊗◌};
ghost use Rattle.vector.specs.Vectors.{entries4, of_entries3, without};
ghost use Rattle.vector.specs.Refusals.{outcome, given, after};
ghost use Rattle.matrix.specs.Inverse.{det2, det3, det4, det_sub_proc};
ghost use Rattle.matrix.specs.Inverse.{nonzero, inverse2, inverse3, inverse4};
ghost use Rattle.matrix.specs.Inverse.{without_place, sign, cofactor, inverse_column};

use crate::places::Matrix;
use crate::records::{Matrix2, Matrix3, Matrix4};
use vector::{Refusal, Vector, Vector3, Vector4, VectorSpace};

// Determinant and inverse, after the Rust's SquareMatrix: what is refused is said once for every order. The formulas are other ones at each.
pub trait Invert: Copy {
    ghost determinant: { Self → Float };

    ghost inverse: { Self → Float → Self };

    // The determinant.
    fn determinant(self) -> f64
        ensures { result ≡ determinant self };

    // The inverse by this determinant; whatever it is, what the float operations give.
    fn inverse_by(self, det: f64) -> Self
        ensures { result ≡ inverse self det };

    // The inverse, or refusal 2 where the determinant compares equal to zero.
    fn invert(self) -> Result<Self, Refusal>
        ensures { outcome result ≡ after (nonzero (determinant self)) (given (inverse self (determinant self))) }
    {
        let det = self.determinant();
        if det == 0.0 {
            return Err(Refusal::Singular);
        }
        Ok(self.inverse_by(det))
    }
}

impl Invert for Matrix2 {
    ghost determinant = { det2 };

    ghost inverse = { inverse2 };

    #[tactic(auto, unfolding(crate::specs::Inverse::det2))]
    fn determinant(self) -> f64 {
        self.x.x * self.y.y - self.y.x * self.x.y
    }

    fn inverse_by(self, det: f64) -> Matrix2 {
        Matrix2::new(
            self.y.y / det,
            -self.x.y / det,
            -self.y.x / det,
            self.x.x / det,
        )
    }
}

impl Invert for Matrix3 {
    ghost determinant = { det3 };

    ghost inverse = { inverse3 };

    #[tactic(auto, unfolding(crate::specs::Inverse::det3))]
    fn determinant(self) -> f64 {
        self.x.x * (self.y.y * self.z.z - self.z.y * self.y.z)
            - self.y.x * (self.x.y * self.z.z - self.z.y * self.x.z)
            + self.z.x * (self.x.y * self.y.z - self.y.y * self.x.z)
    }

    fn inverse_by(self, det: f64) -> Matrix3 {
        let rows = Matrix3::from_cols(
            self.y.cross(self.z).div_scalar(det),
            self.z.cross(self.x).div_scalar(det),
            self.x.cross(self.y).div_scalar(det),
        );
        rows.transpose()
    }
}

impl Invert for Matrix4 {
    ghost determinant = { det4 };

    ghost inverse = { inverse4 };

    #[tactic(auto, unfolding(crate::specs::Inverse::det4))]
    fn determinant(self) -> f64 {
        // Column r of the transpose is row r.
        let rows = self.transpose();
        det_sub_proc(rows.y, rows.z, rows.w).dot(rows.x)
    }

    fn inverse_by(self, det: f64) -> Matrix4 {
        let inv_det = 1.0 / det;
        let t = self.transpose();
        Matrix4::from_cols(
            inverse_column(t, inv_det, 0),
            inverse_column(t, inv_det, 1),
            inverse_column(t, inv_det, 2),
            inverse_column(t, inv_det, 3),
        )
    }
}

// Column i of the inverse, from the transpose and the determinant's reciprocal.
#[tactic(auto, unfolding(crate::specs::Inverse::inverse_column))]
fn inverse_column(t: Matrix4, inv_det: f64, i: usize) -> Vector4
    ensures { result ≡ inverse_column t inv_det i }
{
    Vector4::new(
        cf(t, i, 0) * inv_det,
        cf(t, i, 1) * inv_det,
        cf(t, i, 2) * inv_det,
        cf(t, i, 3) * inv_det,
    )
}

// The minor of the transpose without column i and element j, with its sign; `inverse_column` multiplies by the reciprocal.
#[tactic(auto, unfolding(crate::specs::Inverse::cofactor))]
fn cf(t: Matrix4, i: usize, j: usize) -> f64
    ensures { result ≡ cofactor t i j }
{
    without_place(t, i, j).determinant() * sign_of(i, j)
}

// The matrix without column i, and each kept column without its element j; past the last of them nothing is left out.
fn without_place(t: Matrix4, i: usize, j: usize) -> Matrix3
    ensures { result ≡ without_place t i j }
{
    match i {
        0 => Matrix3::from_cols(kept(t.y, j), kept(t.z, j), kept(t.w, j)),
        1 => Matrix3::from_cols(kept(t.x, j), kept(t.z, j), kept(t.w, j)),
        2 => Matrix3::from_cols(kept(t.x, j), kept(t.y, j), kept(t.w, j)),
        _ => Matrix3::from_cols(kept(t.x, j), kept(t.y, j), kept(t.z, j)),
    }
}

// The vector without its element n, or its first three where there is no such element.
fn kept(v: Vector4, n: usize) -> Vector3
    ensures { result ≡ of_entries3 (without n (entries4 v)) }
{
    v.truncate_n(n).unwrap_or(Vector3::new(v.x, v.y, v.z))
}

// -1 where i + j is odd, and 1 elsewhere.
fn sign_of(i: usize, j: usize) -> f64
    ensures { result ≡ sign i j }
{
    if i % 2 != j % 2 { -1.0 } else { 1.0 }
}

// The text's det_sub_proc_unsafe, handed the rows in place of their numbers x, y and z: `row_x.y` is its `s[4 + x]`.
#[tactic(auto, unfolding(crate::specs::Inverse::det_sub_proc))]
fn det_sub_proc(row_x: Vector4, row_y: Vector4, row_z: Vector4) -> Vector4
    ensures { result ≡ det_sub_proc row_x row_y row_z }
{
    Vector4::new(
        six_terms(
            row_x.y, row_y.z, row_z.w, row_x.z, row_y.w, row_z.y, row_x.w, row_y.y, row_z.z,
        ),
        six_terms(
            row_x.w, row_y.z, row_z.x, row_x.z, row_y.x, row_z.w, row_x.x, row_y.w, row_z.z,
        ),
        six_terms(
            row_x.x, row_y.y, row_z.w, row_x.y, row_y.w, row_z.x, row_x.w, row_y.x, row_z.y,
        ),
        six_terms(
            row_x.z, row_y.y, row_z.x, row_x.y, row_y.x, row_z.z, row_x.x, row_y.z, row_z.y,
        ),
    )
}

// An entry of that vector, from the entries of the text's a to i in its place: three terms added, then three subtracted.
fn six_terms(a: f64, b: f64, c: f64, d: f64, e: f64, f: f64, g: f64, h: f64, i: f64) -> f64
    ensures { result ≡ a ⊗ (b ⊗ c) ⊕ d ⊗ (e ⊗ f) ⊕ g ⊗ (h ⊗ i) ⊖ a ⊗ (e ⊗ i) ⊖ d ⊗ (h ⊗ c) ⊖ g ⊗ (b ⊗ f) }
{
    a * (b * c) + d * (e * f) + g * (h * i) - a * (e * i) - d * (h * c) - g * (b * f)
}
