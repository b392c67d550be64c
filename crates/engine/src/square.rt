// The matrices that the engine takes, of orders 2, 3 and 4; each goes into the corner its own way.
// A matrix of order 2 or 3 stands in the top left corner of the identity of order 4, whose other entries are whole.
ghost use Rattle.std.specs.Prelude.{◌≡◌};
ghost use Rattle.matrix.specs.Places.{at};
ghost use Rattle.matrix.specs.Records.{embed24, embed34};
ghost use Rattle.matrix.specs.declared.records.Matrix4.{Matrix4};
ghost use Rattle.engine.specs.Whole.{floats4, Corner};

use matrix::{Matrix2, Matrix3, Matrix4, SquareMatrix};

// A square matrix that one of order 4 can hold.
pub trait Square: SquareMatrix {
    // The matrix that the method gives.
    ghost cornered: { Self → Matrix4 };

    // The matrix of order 4 that has it in its top left corner, and whole numbers elsewhere.
    fn cornered(self) -> Matrix4
        ensures value { result ≡ cornered self }
        ensures corner { Corner Self.ORDER (at (Self.array self)) (floats4 result) };
}

impl Square for Matrix2 {
    ghost cornered = { embed24 };

    #[tactic(auto, using(crate::proofs::Corners::corner2))]
    fn cornered(self) -> Matrix4 {
        Matrix4::from(self)
    }
}

impl Square for Matrix3 {
    ghost cornered = { embed34 };

    #[tactic(auto, using(crate::proofs::Corners::corner3))]
    fn cornered(self) -> Matrix4 {
        self.into()
    }
}

impl Square for Matrix4 {
    ghost cornered = { λ m. m };

    fn cornered(self) -> Matrix4 {
        self
    }
}
