// Vectors of two, three and four f64: document 01, 'Modules, leaves first', 1.
// Each answer equals its definition in specs/; no function relies on its caller, but that `map` and `zip` ask that their closure may be called.
// A body that names a record's fields stands once for each record: document 01 wants records of floats. What needs no field is in space.rt.
#![tactic(auto)]

pub mod refusal;
pub mod space;

ghost use Rattle.std.specs.Prelude.{◌≡◌, refl};
ghost use Rattle.std.proofs.Common.{lit<};
ghost use Rattle.vector.specs.Vectors.{vector2, vector3, vector4};
ghost use Rattle.vector.specs.Vectors.{map2, map3, map4, zip2, zip3, zip4};
ghost use Rattle.vector.specs.Vectors.{entries2, entries3, entries4, of_entries2, of_entries3, of_entries4};
ghost use Rattle.vector.specs.Vectors.{dot2, dot3, dot4, cross3, truncate_n4};
ghost use Rattle.vector.specs.Refusals.{outcome};

pub use refusal::{Place, Refusal};
pub use space::{Vector, VectorSpace};

// A vector of two numbers.
#[repr(C)]
#[derive(Clone, Copy, Debug, PartialEq)]
pub struct Vector2 {
    pub x: f64,
    pub y: f64,
}

// A vector of three numbers.
#[repr(C)]
#[derive(Clone, Copy, Debug, PartialEq)]
pub struct Vector3 {
    pub x: f64,
    pub y: f64,
    pub z: f64,
}

// A vector of four numbers.
#[repr(C)]
#[derive(Clone, Copy, Debug, PartialEq)]
pub struct Vector4 {
    pub x: f64,
    pub y: f64,
    pub z: f64,
    pub w: f64,
}

impl Vector2 {
    // The vector of these numbers.
    pub fn new(x: f64, y: f64) -> Vector2
        ensures { result ≡ vector2 x y }
    {
        Vector2 { x, y }
    }
}

impl VectorSpace for Vector2 {
    ghost map = { map2 };

    ghost zip = { zip2 };

    fn map<F: Fn(f64) -> f64 + Copy>(self, f: F) -> Vector2 {
        Vector2::new(f(self.x), f(self.y))
    }

    fn zip<F: Fn(f64, f64) -> f64 + Copy>(self, other: Vector2, f: F) -> Vector2 {
        Vector2::new(f(self.x, other.x), f(self.y, other.y))
    }
}

impl Vector for Vector2 {
    ghost LENGTH = { 2 };

    ghost entries = { entries2 };

    ghost of_entries = { of_entries2 };

    ghost dot = { dot2 };

    const LENGTH: usize = 2;

    ghost some = { lit< tt };

    ghost length_is = { λ v. refl };

    ghost there_and_back = { λ v. refl };

    fn from_value(value: f64) -> Vector2 {
        Vector2::new(value, value)
    }

    // The products entry by entry, summed.
    fn dot(self, other: Vector2) -> f64 {
        self.x * other.x + self.y * other.y
    }
}

impl Vector3 {
    // The vector of these numbers.
    pub fn new(x: f64, y: f64, z: f64) -> Vector3
        ensures { result ≡ vector3 x y z }
    {
        Vector3 { x, y, z }
    }

    // The cross product.
    pub fn cross(self, other: Vector3) -> Vector3
        ensures { result ≡ cross3 self other }
    {
        Vector3::new(
            self.y * other.z - self.z * other.y,
            self.z * other.x - self.x * other.z,
            self.x * other.y - self.y * other.x,
        )
    }
}

impl VectorSpace for Vector3 {
    ghost map = { map3 };

    ghost zip = { zip3 };

    fn map<F: Fn(f64) -> f64 + Copy>(self, f: F) -> Vector3 {
        Vector3::new(f(self.x), f(self.y), f(self.z))
    }

    fn zip<F: Fn(f64, f64) -> f64 + Copy>(self, other: Vector3, f: F) -> Vector3 {
        Vector3::new(f(self.x, other.x), f(self.y, other.y), f(self.z, other.z))
    }
}

impl Vector for Vector3 {
    ghost LENGTH = { 3 };

    ghost entries = { entries3 };

    ghost of_entries = { of_entries3 };

    ghost dot = { dot3 };

    const LENGTH: usize = 3;

    ghost some = { lit< tt };

    ghost length_is = { λ v. refl };

    ghost there_and_back = { λ v. refl };

    fn from_value(value: f64) -> Vector3 {
        Vector3::new(value, value, value)
    }

    // The products entry by entry, summed x + (y + z).
    fn dot(self, other: Vector3) -> f64 {
        self.x * other.x + (self.y * other.y + self.z * other.z)
    }
}

impl Vector4 {
    // The vector of these numbers.
    pub fn new(x: f64, y: f64, z: f64, w: f64) -> Vector4
        ensures { result ≡ vector4 x y z w }
    {
        Vector4 { x, y, z, w }
    }

    // The other three entries in their order, without entry n, or refusal 12, first.
    pub fn truncate_n(self, n: usize) -> Result<Vector3, Refusal>
        ensures { outcome result ≡ truncate_n4 self n }
    {
        match n {
            0 => Ok(Vector3::new(self.y, self.z, self.w)),
            1 => Ok(Vector3::new(self.x, self.z, self.w)),
            2 => Ok(Vector3::new(self.x, self.y, self.w)),
            3 => Ok(Vector3::new(self.x, self.y, self.z)),
            _ => Err(Refusal::Row(Place::First)),
        }
    }
}

impl VectorSpace for Vector4 {
    ghost map = { map4 };

    ghost zip = { zip4 };

    fn map<F: Fn(f64) -> f64 + Copy>(self, f: F) -> Vector4 {
        Vector4::new(f(self.x), f(self.y), f(self.z), f(self.w))
    }

    fn zip<F: Fn(f64, f64) -> f64 + Copy>(self, other: Vector4, f: F) -> Vector4 {
        Vector4::new(
            f(self.x, other.x),
            f(self.y, other.y),
            f(self.z, other.z),
            f(self.w, other.w),
        )
    }
}

impl Vector for Vector4 {
    ghost LENGTH = { 4 };

    ghost entries = { entries4 };

    ghost of_entries = { of_entries4 };

    ghost dot = { dot4 };

    const LENGTH: usize = 4;

    ghost some = { lit< tt };

    ghost length_is = { λ v. refl };

    ghost there_and_back = { λ v. refl };

    fn from_value(value: f64) -> Vector4 {
        Vector4::new(value, value, value, value)
    }

    // The products entry by entry, summed x + (y + (z + w)).
    fn dot(self, other: Vector4) -> f64 {
        self.x * other.x + (self.y * other.y + (self.z * other.z + self.w * other.w))
    }
}
