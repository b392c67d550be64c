// The version of the boundary: raised whenever the signature of an entry, or what it answers, changes. The exports.
ghost use Rattle.std.specs.Prelude.{◌≡◌};
ghost use Rattle.migthumo.specs.Boundary.{version as boundary_version};

// The version that this library has.
#[unsafe(no_mangle)]
pub extern "C" fn migthumo_version() -> u32
    ensures { result ≡ boundary_version }
{
    migthumo::version::migthumo_version()
}
