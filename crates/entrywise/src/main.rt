// The operations entry by entry at each vector that no other program calls: `replay` has them at matrices, and the others of them at vectors.
// What each gives is compared bit for bit with what is worked out by hand, on numbers where every step is exact.
#![tactic(auto)]

use std::io;
use vector::{Vector2, Vector3, Vector4, VectorSpace};

// A case: its name is written, and whether its answer was the expected one.
fn case(rt: &impl Print, name: &str, holds: bool) -> io::Result<()> {
    if holds {
        println!(rt; "{name}: ok")
    } else {
        println!(rt; "{name}: FAILED")
    }
}

// Whether two vectors have the same entries, bit for bit.
fn same2(a: Vector2, b: Vector2) -> bool {
    bits::same(a.x, b.x) && bits::same(a.y, b.y)
}

// The same of three.
fn same3(a: Vector3, b: Vector3) -> bool {
    bits::same(a.x, b.x) && bits::same(a.y, b.y) && bits::same(a.z, b.z)
}

// The same of four.
fn same4(a: Vector4, b: Vector4) -> bool {
    bits::same(a.x, b.x) && bits::same(a.y, b.y) && bits::same(a.z, b.z) && bits::same(a.w, b.w)
}

// Two entries. One over 4 is a quarter, and over -2 minus a half.
fn vectors2(rt: &impl Print) -> io::Result<()> {
    let v = Vector2::new(4.0, -2.0);
    case(rt, "Vector2::neg", same2(v.neg(), Vector2::new(-4.0, 2.0)))?;
    case(
        rt,
        "Vector2::scalar_div",
        same2(v.scalar_div(1.0), Vector2::new(0.25, -0.5)),
    )?;
    case(
        rt,
        "Vector2::mul_scalar",
        same2(v.mul_scalar(3.0), Vector2::new(12.0, -6.0)),
    )?;
    case(
        rt,
        "Vector2::div_scalar",
        same2(v.div_scalar(8.0), Vector2::new(0.5, -0.25)),
    )
}

// Three entries. Zero's sign is turned too, and one over zero is infinite.
fn vectors3(rt: &impl Print) -> io::Result<()> {
    let v = Vector3::new(4.0, -2.0, 0.0);
    case(
        rt,
        "Vector3::neg",
        same3(v.neg(), Vector3::new(-4.0, 2.0, -0.0)),
    )?;
    case(
        rt,
        "Vector3::scalar_div",
        same3(v.scalar_div(1.0), Vector3::new(0.25, -0.5, 1.0 / 0.0)),
    )?;
    case(
        rt,
        "Vector3::mul_scalar",
        same3(v.mul_scalar(-3.0), Vector3::new(-12.0, 6.0, -0.0)),
    )
}

// Four entries.
fn vectors4(rt: &impl Print) -> io::Result<()> {
    let v = Vector4::new(4.0, -2.0, 0.0, 0.5);
    case(
        rt,
        "Vector4::neg",
        same4(v.neg(), Vector4::new(-4.0, 2.0, -0.0, -0.5)),
    )?;
    case(
        rt,
        "Vector4::scalar_div",
        same4(v.scalar_div(1.0), Vector4::new(0.25, -0.5, 1.0 / 0.0, 2.0)),
    )?;
    case(
        rt,
        "Vector4::mul_scalar",
        same4(v.mul_scalar(3.0), Vector4::new(12.0, -6.0, 0.0, 1.5)),
    )?;
    case(
        rt,
        "Vector4::div_scalar",
        same4(v.div_scalar(8.0), Vector4::new(0.5, -0.25, 0.0, 0.0625)),
    )
}

fn main(rt: HostRuntime) -> io::Result<()> {
    vectors2(&rt)?;
    vectors3(&rt)?;
    vectors4(&rt)
}
