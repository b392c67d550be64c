// The matrix of a flat slice of its columns, one after the other.
// One impl for each record: they name its places.
// Read as `bulk` reads it for itself; a reader of that crate's for all would ask its callers for the length, which no public function may.
ghost use Rattle.std.specs.Prelude.{◌≡◌, ℕ, List, Float, length};
ghost use Rattle.vector.specs.Refusals.{outcome, given, after};
ghost use Rattle.vector.specs.declared.refusal.Refusal.TheVariants.{InputLength};
ghost use Rattle.bulk.specs.Refusals.{number_is};
ghost use Rattle.bulk.specs.Moves.{flat2, flat3, flat4};

use matrix::{Matrix, Matrix2, Matrix3, Matrix4};
use vector::Refusal;

// What a flat slice of COUNT numbers is a matrix of.
pub(crate) trait Load: Copy {
    ghost COUNT: { ℕ };

    // How many numbers it has.
    const COUNT: usize;

    ghost flat: { List Float → Self };

    // The matrix of as many numbers.
    fn read(s: &[f64]) -> Self
        requires { length s.now ≡ COUNT }
        ensures { result ≡ flat s.now };

    // The matrix, or refusal 3 where there are not as many numbers.
    fn load(s: &[f64]) -> Result<Self, Refusal>
        ensures { outcome result ≡ after (number_is InputLength (length s.now) COUNT) (given (flat s.now)) }
    {
        if s.len() != Self::COUNT {
            return Err(Refusal::InputLength);
        }
        Ok(Self::read(s))
    }
}

impl Load for Matrix2 {
    ghost COUNT = { 4 };

    const COUNT: usize = 4;

    ghost flat = { flat2 };

    #[tactic(auto, using(crate::proofs::Flat::read_flat2))]
    fn read(s: &[f64]) -> Matrix2 {
        Matrix2::from_array([[s[0], s[1]], [s[2], s[3]]])
    }
}

impl Load for Matrix3 {
    ghost COUNT = { 9 };

    const COUNT: usize = 9;

    ghost flat = { flat3 };

    #[tactic(auto, using(crate::proofs::Flat::read_flat3))]
    fn read(s: &[f64]) -> Matrix3 {
        Matrix3::from_array([[s[0], s[1], s[2]], [s[3], s[4], s[5]], [s[6], s[7], s[8]]])
    }
}

impl Load for Matrix4 {
    ghost COUNT = { 16 };

    const COUNT: usize = 16;

    ghost flat = { flat4 };

    #[tactic(auto, using(crate::proofs::Flat::read_flat4))]
    fn read(s: &[f64]) -> Matrix4 {
        Matrix4::from_array([
            [s[0], s[1], s[2], s[3]],
            [s[4], s[5], s[6], s[7]],
            [s[8], s[9], s[10], s[11]],
            [s[12], s[13], s[14], s[15]],
        ])
    }
}
