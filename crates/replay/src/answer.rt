// What an operation answers: the bit patterns of its entries, or a refusal as the list writes it.
use arrayvec::ArrayVec;
use bits::pattern;
use matrix::{Matrix, Matrix2, Matrix3, Matrix4};
use vector::{Place, Refusal, Vector2, Vector3, Vector4};

// A refusal as the list writes it, which is worked out here and not taken from the boundary: the number of its cause, and 256 more where the second place is at fault.
#[derive(Clone, Copy, PartialEq, Eq)]
pub struct Written(pub u64);

impl From<Refusal> for Written {
    fn from(cause: Refusal) -> Written {
        let number = u64::from(cause.number());
        match cause.place() {
            Some(Place::Second) => Written(number + 256),
            _ => Written(number),
        }
    }
}

// The patterns of the entries, of which a matrix of order 4 has the most.
pub type Entries = ArrayVec<u64, 16>;

// The entries, or a refusal.
pub type Answer = Result<Entries, Written>;

// What an operation gives.
pub trait HasEntries {
    // The patterns of its entries, those of a matrix column by column.
    fn entries(self) -> Entries;
}

// The patterns of these numbers.
fn patterns(numbers: &[f64]) -> Entries {
    let mut entries = Entries::new();
    for x in numbers {
        let _ = entries.try_push(pattern(*x));
    }
    entries
}

// One word.
fn word(bits: u64) -> Entries {
    let mut entries = Entries::new();
    let _ = entries.try_push(bits);
    entries
}

impl HasEntries for f64 {
    fn entries(self) -> Entries {
        word(pattern(self))
    }
}

// A whole number is written in two's complement.
impl HasEntries for i64 {
    fn entries(self) -> Entries {
        word(self.cast_unsigned())
    }
}

// Yes is written as 1 and no as 0.
impl HasEntries for bool {
    fn entries(self) -> Entries {
        word(u64::from(self))
    }
}

// An impl for each vector: they name its fields.
impl HasEntries for Vector2 {
    fn entries(self) -> Entries {
        patterns(&[self.x, self.y])
    }
}

impl HasEntries for Vector3 {
    fn entries(self) -> Entries {
        patterns(&[self.x, self.y, self.z])
    }
}

impl HasEntries for Vector4 {
    fn entries(self) -> Entries {
        patterns(&[self.x, self.y, self.z, self.w])
    }
}

// An impl for each order: in one for every M: Matrix<N> nothing would say which N, and the check refuses it.
impl HasEntries for Matrix2 {
    fn entries(self) -> Entries {
        patterns(self.into_array().as_flattened())
    }
}

impl HasEntries for Matrix3 {
    fn entries(self) -> Entries {
        patterns(self.into_array().as_flattened())
    }
}

impl HasEntries for Matrix4 {
    fn entries(self) -> Entries {
        patterns(self.into_array().as_flattened())
    }
}

// The answer of an operation that gives this.
pub(crate) fn given<T: HasEntries>(value: T) -> Option<Answer> {
    Some(Ok(value.entries()))
}

// The answer of an operation that gives this or refuses.
pub(crate) fn answered<T: HasEntries>(answer: Result<T, Refusal>) -> Option<Answer> {
    Some(match answer {
        Ok(value) => Ok(value.entries()),
        Err(cause) => Err(Written::from(cause)),
    })
}
