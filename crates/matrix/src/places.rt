// Row, diagonal, transpose and the swaps by value: document 01, 'Modules, leaves first', 3; what their range tests name: document 02, No. 1, 'Say column or row'.
ghost use Rattle.std.specs.Prelude.{◌≡◌, ◌<◌, List, refl};
ghost use Rattle.vector.specs.Refusals.{Outcome, outcome, given, after, below_limit};
ghost use Rattle.matrix.specs.declared.places.Row.{Row};
ghost use Rattle.matrix.specs.Records.{of_array2, of_array3, of_array4};
ghost use Rattle.matrix.specs.Places.{row_below, column_below, rows_below, columns_below, elements_below};
ghost use Rattle.matrix.specs.Places.{exchange, swap_rows, swap_columns, swap_elements};
ghost use Rattle.matrix.specs.Places.{row2, row3, row4};
ghost use Rattle.matrix.specs.Places.{diagonal2, diagonal3, diagonal4, transpose2, transpose3, transpose4};

use crate::records::{Matrix2, Matrix3, Matrix4};
use crate::square::SquareMatrix;
use vector::{Place, Refusal, Vector2, Vector3, Vector4};

// A column's number, counted from 0.
#[derive(Clone, Copy, Debug, PartialEq, Eq)]
pub struct Column(pub usize);

// A row's number, counted from 0.
#[derive(Clone, Copy, Debug, PartialEq, Eq)]
pub struct Row(pub usize);

// Whether the number is below the order: else refused for the cause.
#[tactic(auto, using(vector::proofs::Checks::within, vector::proofs::Checks::outside))]
fn below(order: usize, n: usize, cause: Refusal) -> Result<(), Refusal>
    ensures { outcome result ≡ below_limit cause order n }
{
    if n < order { Ok(()) } else { Err(cause) }
}

// Whether the row number, the first or the second, is below the order: refusal 12. Rows and columns stay types of their own here and
// in the two that take both numbers: document 01 keeps them apart.
fn check_row(order: usize, place: Place, r: Row) -> Result<(), Refusal>
    ensures { outcome result ≡ row_below order place r }
{
    below(order, r.0, Refusal::Row(place))
}

// Whether the column number, the first or the second, is below the order: refusal 11.
fn check_column(order: usize, place: Place, c: Column) -> Result<(), Refusal>
    ensures { outcome result ≡ column_below order place c }
{
    below(order, c.0, Refusal::Column(place))
}

// Whether both row numbers are below the order, the first tested first.
#[tactic(auto, unfolding(crate::specs::Places::rows_below))]
fn check_rows(order: usize, a: Row, b: Row) -> Result<(), Refusal>
    ensures { outcome result ≡ rows_below order a b }
{
    check_row(order, Place::First, a)?;
    check_row(order, Place::Second, b)
}

// Whether both column numbers are below the order, the first tested first.
#[tactic(auto, unfolding(crate::specs::Places::columns_below))]
fn check_columns(order: usize, a: Column, b: Column) -> Result<(), Refusal>
    ensures { outcome result ≡ columns_below order a b }
{
    check_column(order, Place::First, a)?;
    check_column(order, Place::Second, b)
}

// Whether the four numbers are below the order: the first column, the first row, the second column, the second row, in this order.
#[tactic(auto, unfolding(crate::specs::Places::elements_below))]
fn check_elements(order: usize, ac: Column, ar: Row, bc: Column, br: Row) -> Result<(), Refusal>
    ensures { outcome result ≡ elements_below order ac ar bc br }
{
    check_column(order, Place::First, ac)?;
    check_row(order, Place::First, ar)?;
    check_column(order, Place::Second, bc)?;
    check_row(order, Place::Second, br)
}

// The list with what stands at places i and j exchanged: both are read, then both are written.
// Here and in the three below the numbers are asked to be below N: a type that held this would make the tests promise pairs of numbers in place of `rows_below`.
fn exchanged<T: Copy, const N: usize>(list: [T; N], i: usize, j: usize) -> [T; N]
    requires { (i < N) × (j < N) }
    ensures { (past : T) → result ≡ exchange past i j list }
{
    let mut out = list;
    out[i] = list[j];
    out[j] = list[i];
    out
}

// The array with columns a and b exchanged.
fn columns_swapped<const N: usize>(m: [[f64; N]; N], a: usize, b: usize) -> [[f64; N]; N]
    requires { (a < N) × (b < N) }
    ensures { result ≡ swap_columns m.entry a b }
{
    exchanged(m, a, b)
}

// The array with rows a and b exchanged, in each column.
fn rows_swapped<const N: usize>(m: [[f64; N]; N], a: usize, b: usize) -> [[f64; N]; N]
    requires { (a < N) × (b < N) }
    ensures { result ≡ swap_rows m.entry a b }
{
    let mut out = m;
    for column in out.iter_mut() {
        *column = exchanged(*column, a, b);
    }
    out
}

// The array with m[ac][ar] and m[bc][br] exchanged.
fn elements_swapped<const N: usize>(
    m: [[f64; N]; N],
    ac: usize,
    ar: usize,
    bc: usize,
    br: usize,
) -> [[f64; N]; N]
    requires { (ac < N) × (ar < N) × (bc < N) × (br < N) }
    ensures { result ≡ swap_elements m.entry ac ar bc br }
{
    let mut out = m;
    out[ac][ar] = m[bc][br];
    out[bc][br] = m[ac][ar];
    out
}

// Rows, columns and entries by their numbers, after the Rust's Matrix: what the numbers decide is said once for every order.
// Arrays both ways are methods here and no `From`: a bound of that name brings a relation, and the swaps want the equations. What names a
// record's fields stands once for each record.
pub trait Matrix<const N: usize>: SquareMatrix {
    ghost row: { Self → Row → Outcome Self.Column };

    ghost diagonal: { Self → Self.Column };

    ghost transpose: { Self → Self };

    // The array of columns, each an array of numbers.
    fn into_array(self) -> [[f64; N]; N]
        ensures { result ≡ Self.array self };

    // The matrix of an array of columns.
    fn from_array(m: [[f64; N]; N]) -> Self
        ensures { result ≡ Self.of_array m.entry };

    // Row r, or refusal 12, first.
    fn row(self, r: Row) -> Result<Self::Column, Refusal>
        ensures { outcome result ≡ row self r };

    // The diagonal.
    fn diagonal(self) -> Self::Column
        ensures { result ≡ diagonal self };

    // Columns become rows.
    fn transpose(self) -> Self
        ensures { result ≡ transpose self };

    // Rows a and b exchanged, or refusal 12.
    fn swap_rows(self, a: Row, b: Row) -> Result<Self, Refusal>
        ensures { outcome result ≡ after (rows_below N a b) (given (Self.of_array (swap_rows (Self.array self) a.0 b.0))) }
    {
        check_rows(N, a, b)?;
        Ok(Self::from_array(rows_swapped(self.into_array(), a.0, b.0)))
    }

    // Columns a and b exchanged, or refusal 11.
    fn swap_columns(self, a: Column, b: Column) -> Result<Self, Refusal>
        ensures { outcome result ≡ after (columns_below N a b) (given (Self.of_array (swap_columns (Self.array self) a.0 b.0))) }
    {
        check_columns(N, a, b)?;
        Ok(Self::from_array(columns_swapped(self.into_array(), a.0, b.0)))
    }

    // The entry in column ac, row ar and the one in column bc, row br exchanged, or refusal 11 or 12.
    fn swap_elements(self, ac: Column, ar: Row, bc: Column, br: Row) -> Result<Self, Refusal>
        ensures { outcome result ≡ after (elements_below N ac ar bc br) (given (Self.of_array (swap_elements (Self.array self) ac.0 ar.0 bc.0 br.0))) }
    {
        check_elements(N, ac, ar, bc, br)?;
        Ok(Self::from_array(elements_swapped(self.into_array(), ac.0, ar.0, bc.0, br.0)))
    }

    // N is the order.
    ghost order: { Self.ORDER ≡ N };
}

impl Matrix<2> for Matrix2 {
    ghost row = { row2 };

    ghost diagonal = { diagonal2 };

    ghost transpose = { transpose2 };

    ghost order = { refl };

    fn into_array(self) -> [[f64; 2]; 2] {
        [[self.x.x, self.x.y], [self.y.x, self.y.y]]
    }

    fn from_array(m: [[f64; 2]; 2]) -> Matrix2
        ensures { result ≡ of_array2 m }
    {
        Matrix2::new(m[0][0], m[0][1], m[1][0], m[1][1])
    }

    #[tactic(auto, using(vector::proofs::Checks::outside), unfolding(vector::specs::Refusals::below_limit))]
    fn row(self, r: Row) -> Result<Vector2, Refusal> {
        let rows = self.transpose();
        match r.0 {
            0 => Ok(rows.x),
            1 => Ok(rows.y),
            _ => Err(Refusal::Row(Place::First)),
        }
    }

    fn diagonal(self) -> Vector2 {
        Vector2::new(self.x.x, self.y.y)
    }

    fn transpose(self) -> Matrix2 {
        Matrix2::from_array([[self.x.x, self.y.x], [self.x.y, self.y.y]])
    }
}

impl Matrix<3> for Matrix3 {
    ghost row = { row3 };

    ghost diagonal = { diagonal3 };

    ghost transpose = { transpose3 };

    ghost order = { refl };

    fn into_array(self) -> [[f64; 3]; 3] {
        [
            [self.x.x, self.x.y, self.x.z],
            [self.y.x, self.y.y, self.y.z],
            [self.z.x, self.z.y, self.z.z],
        ]
    }

    fn from_array(m: [[f64; 3]; 3]) -> Matrix3
        ensures { result ≡ of_array3 m }
    {
        Matrix3::new(
            m[0][0], m[0][1], m[0][2], m[1][0], m[1][1], m[1][2], m[2][0], m[2][1], m[2][2],
        )
    }

    #[tactic(auto, using(vector::proofs::Checks::outside), unfolding(vector::specs::Refusals::below_limit))]
    fn row(self, r: Row) -> Result<Vector3, Refusal> {
        let rows = self.transpose();
        match r.0 {
            0 => Ok(rows.x),
            1 => Ok(rows.y),
            2 => Ok(rows.z),
            _ => Err(Refusal::Row(Place::First)),
        }
    }

    fn diagonal(self) -> Vector3 {
        Vector3::new(self.x.x, self.y.y, self.z.z)
    }

    fn transpose(self) -> Matrix3 {
        Matrix3::from_array([
            [self.x.x, self.y.x, self.z.x],
            [self.x.y, self.y.y, self.z.y],
            [self.x.z, self.y.z, self.z.z],
        ])
    }
}

impl Matrix<4> for Matrix4 {
    ghost row = { row4 };

    ghost diagonal = { diagonal4 };

    ghost transpose = { transpose4 };

    ghost order = { refl };

    fn into_array(self) -> [[f64; 4]; 4] {
        [
            [self.x.x, self.x.y, self.x.z, self.x.w],
            [self.y.x, self.y.y, self.y.z, self.y.w],
            [self.z.x, self.z.y, self.z.z, self.z.w],
            [self.w.x, self.w.y, self.w.z, self.w.w],
        ]
    }

    fn from_array(m: [[f64; 4]; 4]) -> Matrix4
        ensures { result ≡ of_array4 m }
    {
        Matrix4::new(
            m[0][0], m[0][1], m[0][2], m[0][3], m[1][0], m[1][1], m[1][2], m[1][3], m[2][0],
            m[2][1], m[2][2], m[2][3], m[3][0], m[3][1], m[3][2], m[3][3],
        )
    }

    #[tactic(auto, using(vector::proofs::Checks::outside), unfolding(vector::specs::Refusals::below_limit))]
    fn row(self, r: Row) -> Result<Vector4, Refusal> {
        let rows = self.transpose();
        match r.0 {
            0 => Ok(rows.x),
            1 => Ok(rows.y),
            2 => Ok(rows.z),
            3 => Ok(rows.w),
            _ => Err(Refusal::Row(Place::First)),
        }
    }

    fn diagonal(self) -> Vector4 {
        Vector4::new(self.x.x, self.y.y, self.z.z, self.w.w)
    }

    fn transpose(self) -> Matrix4 {
        Matrix4::from_array([
            [self.x.x, self.y.x, self.z.x, self.w.x],
            [self.x.y, self.y.y, self.z.y, self.w.y],
            [self.x.z, self.y.z, self.z.z, self.w.z],
            [self.x.w, self.y.w, self.z.w, self.w.w],
        ])
    }
}
