// The operations of the list: the name of each, and how many words it reads.
// A new operation is a variant, a row of LISTED, an arm of `reads`, and an arm in the file of its group.
// The bulk moves read as many numbers as their lines say: they are in moves.rt alone.
ghost use Rattle.std.specs.Prelude.{◌<◌};

// What a line's function does.
#[derive(Clone, Copy)]
pub enum Operation {
    // The sum of two vectors of the order's length.
    VectorAdd,
    // The difference of two vectors.
    VectorSub,
    // A scalar times a vector; the vector is read first.
    VectorScalarMul,
    // A vector divided by a scalar.
    VectorDivScalar,
    // The dot product.
    VectorDot,
    // The cross product.
    VectorCross,
    // A vector without the entry at a place.
    VectorTruncateN,
    // The matrix of zeros; the builders, arrays and embeddings begin here.
    Zero,
    // The identity.
    Identity,
    // A matrix of its entries.
    New,
    // A matrix of its columns.
    FromCols,
    // A matrix of an array of columns.
    FromArray,
    // The array of columns of a matrix.
    IntoArray,
    // A value down the diagonal.
    FromValue,
    // A vector down the diagonal.
    FromDiagonal,
    // A scaling by one value.
    FromScale,
    // A scaling by a value for each coordinate.
    FromNonuniformScale,
    // A translation.
    FromTranslation,
    // A matrix of order 2 in the corner of a larger one.
    FromMatrix2,
    // A matrix of order 3 in the corner of a larger one.
    FromMatrix3,
    // A row; what is read or moved by its place begins here.
    Row,
    // The diagonal.
    Diagonal,
    // The transpose.
    Transpose,
    // Two rows exchanged.
    SwapRows,
    // Two columns exchanged.
    SwapColumns,
    // Two entries exchanged, each named by its column and its row.
    SwapElements,
    // The sum of two matrices; sums, scalar forms and products begin here.
    Add,
    // The difference of two matrices.
    Sub,
    // A scalar times a matrix; the matrix is read first.
    ScalarMul,
    // A scalar divided by a matrix; the matrix is read first.
    ScalarDiv,
    // A matrix times a scalar.
    MulScalar,
    // A matrix divided by a scalar.
    DivScalar,
    // Every sign turned.
    Neg,
    // The product of two matrices.
    Mul,
    // A matrix times a vector.
    MulVector,
    // The determinant.
    Determinant,
    // The inverse.
    Invert,
    // A rotation of the plane; the rotations begin here, each with the sine and the cosine handed in.
    FromAngle,
    // A rotation around the x axis.
    FromAngleX,
    // A rotation around the y axis.
    FromAngleY,
    // A rotation around the z axis.
    FromAngleZ,
    // A rotation around an axis, which is read last.
    FromAxisAngle,
    // The signed sum; the exact engine begins here.
    SignedSum,
    // Whether the signed sum is undoable.
    Undoable,
    // The cofactor of a place, its column and then its row.
    Cofactor,
    // Vectors moved in bulk; the bulk moves begin here, and read lines of their own.
    MoveVectors,
    // Points moved in bulk.
    MovePoints,
    // A determinant whose line states a wrong answer on purpose: it has to be counted as different.
    Planted,
}

// How many operations there are, the planted one too.
pub const COUNT: usize = 48;

// Every operation but the planted one, and its name.
pub const LISTED: [(Operation, &str); 47] = [
    (Operation::VectorAdd, "vector_add"),
    (Operation::VectorSub, "vector_sub"),
    (Operation::VectorScalarMul, "vector_scalar_mul"),
    (Operation::VectorDivScalar, "vector_div_scalar"),
    (Operation::VectorDot, "vector_dot"),
    (Operation::VectorCross, "vector_cross"),
    (Operation::VectorTruncateN, "vector_truncate_n"),
    (Operation::Zero, "zero"),
    (Operation::Identity, "identity"),
    (Operation::New, "new"),
    (Operation::FromCols, "from_cols"),
    (Operation::FromArray, "from_array"),
    (Operation::IntoArray, "into_array"),
    (Operation::FromValue, "from_value"),
    (Operation::FromDiagonal, "from_diagonal"),
    (Operation::FromScale, "from_scale"),
    (Operation::FromNonuniformScale, "from_nonuniform_scale"),
    (Operation::FromTranslation, "from_translation"),
    (Operation::FromMatrix2, "from_matrix2"),
    (Operation::FromMatrix3, "from_matrix3"),
    (Operation::Row, "row"),
    (Operation::Diagonal, "diagonal"),
    (Operation::Transpose, "transpose"),
    (Operation::SwapRows, "swap_rows"),
    (Operation::SwapColumns, "swap_columns"),
    (Operation::SwapElements, "swap_elements"),
    (Operation::Add, "add"),
    (Operation::Sub, "sub"),
    (Operation::ScalarMul, "scalar_mul"),
    (Operation::ScalarDiv, "scalar_div"),
    (Operation::MulScalar, "mul_scalar"),
    (Operation::DivScalar, "div_scalar"),
    (Operation::Neg, "neg"),
    (Operation::Mul, "mul"),
    (Operation::MulVector, "mul_vector"),
    (Operation::Determinant, "determinant"),
    (Operation::Invert, "invert"),
    (Operation::FromAngle, "from_angle"),
    (Operation::FromAngleX, "from_angle_x"),
    (Operation::FromAngleY, "from_angle_y"),
    (Operation::FromAngleZ, "from_angle_z"),
    (Operation::FromAxisAngle, "from_axis_angle"),
    (Operation::SignedSum, "signed_sum"),
    (Operation::Undoable, "undoable"),
    (Operation::Cofactor, "cofactor"),
    (Operation::MoveVectors, "move_vectors"),
    (Operation::MovePoints, "move_points"),
];

// The order of the vectors and matrices that an operation is of. The report has orders of its own, which the programs do not see.
#[derive(Clone, Copy)]
pub enum Order {
    Two,
    Three,
    Four,
}

impl Order {
    // The order that the word states.
    pub(crate) fn stated(word: &[u8]) -> Option<Order> {
        match word {
            b"2" => Some(Order::Two),
            b"3" => Some(Order::Three),
            b"4" => Some(Order::Four),
            _ => None,
        }
    }

    // How long a vector of the order is.
    fn length(self) -> usize
        ensures { (1 < result) × (result < 5) }
    {
        match self {
            Order::Two => 2,
            Order::Three => 3,
            Order::Four => 4,
        }
    }
}

impl Operation {
    // The operation that the word names.
    pub(crate) fn named(word: &[u8]) -> Option<Operation> {
        match word {
            b"planted" => Some(Operation::Planted),
            _ => LISTED
                .iter()
                .find(|row| row.1.as_bytes() == word)
                .map(|row| row.0),
        }
    }

    // How many words the operation of this order reads.
    pub(crate) fn reads(self, order: Order) -> usize {
        let length = order.length();
        let square = length * length;
        match self {
            Operation::Zero | Operation::Identity => 0,
            Operation::FromValue | Operation::FromScale => 1,
            Operation::FromAngle
            | Operation::FromAngleX
            | Operation::FromAngleY
            | Operation::FromAngleZ => 2,
            Operation::FromMatrix2 => 4,
            Operation::FromAxisAngle => 5,
            Operation::FromMatrix3 => 9,
            Operation::FromNonuniformScale | Operation::FromTranslation => length - 1,
            Operation::FromDiagonal => length,
            Operation::VectorScalarMul | Operation::VectorDivScalar | Operation::VectorTruncateN =>
                length + 1,
            Operation::VectorAdd
            | Operation::VectorSub
            | Operation::VectorDot
            | Operation::VectorCross => length + length,
            Operation::Row
            | Operation::ScalarMul
            | Operation::ScalarDiv
            | Operation::MulScalar
            | Operation::DivScalar => square + 1,
            Operation::SwapRows | Operation::SwapColumns | Operation::Cofactor => square + 2,
            Operation::SwapElements => square + 4,
            Operation::MulVector => square + length,
            Operation::Add | Operation::Sub | Operation::Mul => square + square,
            _ => square,
        }
    }
}
