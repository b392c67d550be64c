// The words that an operation reads, and the numbers, vectors and matrices that are made of them.
use matrix::{Column, Matrix2, Matrix3, Matrix4, Row};
use std::array;
use vector::{Vector2, Vector3, Vector4};

// The bit patterns that are still to be read.
#[derive(Clone, Copy)]
pub struct Words<'a>(pub &'a [u64]);

// What the next words state.
pub trait Stated {
    // It, and they are read.
    fn stated(words: &mut Words<'_>) -> Self;
}

impl Words<'_> {
    // The next word; 0 behind the last.
    fn word(&mut self) -> u64 {
        let Some((word, rest)) = self.0.split_first() else {
            return 0;
        };
        self.0 = rest;
        *word
    }

    // What the next words state.
    pub(crate) fn read<T: Stated>(&mut self) -> T {
        T::stated(self)
    }
}

impl Stated for f64 {
    fn stated(words: &mut Words<'_>) -> f64 {
        bits::number(words.word())
    }
}

impl Stated for usize {
    fn stated(words: &mut Words<'_>) -> usize {
        words.word() as usize
    }
}

impl Stated for Row {
    fn stated(words: &mut Words<'_>) -> Row {
        Row(words.read())
    }
}

impl Stated for Column {
    fn stated(words: &mut Words<'_>) -> Column {
        Column(words.read())
    }
}

impl<T: Stated, const N: usize> Stated for [T; N] {
    fn stated(words: &mut Words<'_>) -> [T; N] {
        array::from_fn(|_| words.read())
    }
}

// An impl for each record: `new` and `from_cols` take an argument for each entry or column, so no two are alike.
impl Stated for Vector2 {
    fn stated(words: &mut Words<'_>) -> Vector2 {
        let [x, y]: [f64; 2] = words.read();
        Vector2::new(x, y)
    }
}

impl Stated for Vector3 {
    fn stated(words: &mut Words<'_>) -> Vector3 {
        let [x, y, z]: [f64; 3] = words.read();
        Vector3::new(x, y, z)
    }
}

impl Stated for Vector4 {
    fn stated(words: &mut Words<'_>) -> Vector4 {
        let [x, y, z, w]: [f64; 4] = words.read();
        Vector4::new(x, y, z, w)
    }
}

impl Stated for Matrix2 {
    fn stated(words: &mut Words<'_>) -> Matrix2 {
        let [x, y]: [Vector2; 2] = words.read();
        Matrix2::from_cols(x, y)
    }
}

impl Stated for Matrix3 {
    fn stated(words: &mut Words<'_>) -> Matrix3 {
        let [x, y, z]: [Vector3; 3] = words.read();
        Matrix3::from_cols(x, y, z)
    }
}

impl Stated for Matrix4 {
    fn stated(words: &mut Words<'_>) -> Matrix4 {
        let [x, y, z, w]: [Vector4; 4] = words.read();
        Matrix4::from_cols(x, y, z, w)
    }
}
