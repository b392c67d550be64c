// Vectors as they stand in a flat slice of numbers. One impl for each record: they name its fields.
ghost use Rattle.std.specs.Prelude.{◌≡◌, ◌+◌, ◌≤◌, length};
ghost use Rattle.std.proofs.lemmas.List.Edits.{sets};
ghost use Rattle.bulk.specs.Groups.{part};

use vector::{Vector, Vector2, Vector3, Vector4};

// A vector that is read from so many numbers of a slice, and written there. The slice is asked to have them: of what it ends as after its
// chunks were written, the library says nothing.
pub(crate) trait Flat: Vector {
    // The vector of the numbers from i on.
    fn at(s: &[f64], i: usize) -> Self
        requires { i + Self.LENGTH ≤ length s.now }
        ensures { result ≡ Self.of_entries (part Self.LENGTH i s.now) };

    // Writes the vector from i on.
    fn put(self, out: &mut [f64], i: usize)
        requires { i + Self.LENGTH ≤ length out.old }
        ensures { out.new ≡ sets out.old i (Self.entries self) };
}

impl Flat for Vector2 {
    fn at(s: &[f64], i: usize) -> Vector2 {
        Vector2::new(s[i], s[i + 1])
    }

    fn put(self, out: &mut [f64], i: usize) {
        out[i] = self.x;
        out[i + 1] = self.y;
    }
}

impl Flat for Vector3 {
    fn at(s: &[f64], i: usize) -> Vector3 {
        Vector3::new(s[i], s[i + 1], s[i + 2])
    }

    fn put(self, out: &mut [f64], i: usize) {
        out[i] = self.x;
        out[i + 1] = self.y;
        out[i + 2] = self.z;
    }
}

impl Flat for Vector4 {
    fn at(s: &[f64], i: usize) -> Vector4 {
        Vector4::new(s[i], s[i + 1], s[i + 2], s[i + 3])
    }

    fn put(self, out: &mut [f64], i: usize) {
        out[i] = self.x;
        out[i + 1] = self.y;
        out[i + 2] = self.z;
        out[i + 3] = self.w;
    }
}
