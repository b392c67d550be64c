// What was made, stored in an output of as many numbers.
// One impl for each record: they name its fields.
// At order 2 the first number is written last: ends that differ keep the compiler from storing the orders by one slow tail.
ghost use Rattle.std.specs.Prelude.{◌≡◌, ℕ, List, length};
ghost use Rattle.vector.specs.Vectors.{entries2, entries3, entries4};
ghost use Rattle.migthumo.specs.Flat.{numbers2, numbers3, numbers4, alone, flag};

use matrix::{Matrix2, Matrix3, Matrix4};
use vector::{Vector2, Vector3, Vector4};

// What an output of COUNT numbers holds.
pub(crate) trait Store<T>: Copy {
    ghost COUNT: { ℕ };

    // How many numbers it has.
    const COUNT: usize;

    ghost numbers: { Self → List T };

    // Writes its numbers over all that stands there.
    fn put(self, out: &mut [T])
        requires { length out.old ≡ COUNT }
        ensures { out.new ≡ numbers self };
}

// One number.
impl Store<f64> for f64 {
    ghost COUNT = { 1 };

    const COUNT: usize = 1;

    ghost numbers = { alone };

    fn put(self, out: &mut [f64]) {
        out[0] = self;
    }
}

// One whole number.
impl Store<i64> for i64 {
    ghost COUNT = { 1 };

    const COUNT: usize = 1;

    ghost numbers = { alone };

    fn put(self, out: &mut [i64]) {
        out[0] = self;
    }
}

// A yes or no, as 1 or 0.
impl Store<u8> for bool {
    ghost COUNT = { 1 };

    const COUNT: usize = 1;

    ghost numbers = { flag };

    fn put(self, out: &mut [u8]) {
        out[0] = u8::from(self);
    }
}

impl Store<f64> for Vector2 {
    ghost COUNT = { 2 };

    const COUNT: usize = 2;

    ghost numbers = { entries2 };

    fn put(self, out: &mut [f64]) {
        out[1] = self.y;
        out[0] = self.x;
    }
}

impl Store<f64> for Vector3 {
    ghost COUNT = { 3 };

    const COUNT: usize = 3;

    ghost numbers = { entries3 };

    fn put(self, out: &mut [f64]) {
        out[0] = self.x;
        out[1] = self.y;
        out[2] = self.z;
    }
}

impl Store<f64> for Vector4 {
    ghost COUNT = { 4 };

    const COUNT: usize = 4;

    ghost numbers = { entries4 };

    fn put(self, out: &mut [f64]) {
        out[0] = self.x;
        out[1] = self.y;
        out[2] = self.z;
        out[3] = self.w;
    }
}

// Column after column.
impl Store<f64> for Matrix2 {
    ghost COUNT = { 4 };

    const COUNT: usize = 4;

    ghost numbers = { numbers2 };

    fn put(self, out: &mut [f64]) {
        out[1] = self.x.y;
        out[2] = self.y.x;
        out[3] = self.y.y;
        out[0] = self.x.x;
    }
}

// Column after column.
impl Store<f64> for Matrix3 {
    ghost COUNT = { 9 };

    const COUNT: usize = 9;

    ghost numbers = { numbers3 };

    fn put(self, out: &mut [f64]) {
        out[0] = self.x.x;
        out[1] = self.x.y;
        out[2] = self.x.z;
        out[3] = self.y.x;
        out[4] = self.y.y;
        out[5] = self.y.z;
        out[6] = self.z.x;
        out[7] = self.z.y;
        out[8] = self.z.z;
    }
}

// Column after column.
impl Store<f64> for Matrix4 {
    ghost COUNT = { 16 };

    const COUNT: usize = 16;

    ghost numbers = { numbers4 };

    fn put(self, out: &mut [f64]) {
        out[0] = self.x.x;
        out[1] = self.x.y;
        out[2] = self.x.z;
        out[3] = self.x.w;
        out[4] = self.y.x;
        out[5] = self.y.y;
        out[6] = self.y.z;
        out[7] = self.y.w;
        out[8] = self.z.x;
        out[9] = self.z.y;
        out[10] = self.z.z;
        out[11] = self.z.w;
        out[12] = self.w.x;
        out[13] = self.w.y;
        out[14] = self.w.z;
        out[15] = self.w.w;
    }
}
