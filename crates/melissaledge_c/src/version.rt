//! The version of the library.

ghost use Rattle.std.specs.Prelude.{◌≡◌, pos};

/// A version: `struct mle_version` of C.
#[repr(C)]
#[derive(Clone, Copy, PartialEq, Eq)]
pub struct Version {
    /// Another one may refuse what this one takes.
    pub major: u32,
    /// A higher one has more calls.
    pub minor: u32,
    /// A higher one mends something.
    pub patch: u32,
}

/// The version of this library, as `MLE_VERSION` of its header has it.
const VERSION: Version = Version {
    major: 0,
    minor: 2,
    patch: 0,
};

/// Tells the version of the library: 0.
#[unsafe(no_mangle)]
pub extern "C" fn melissaledge_version(version: &mut Version) -> i32
    ensures done { result ≡ pos 0 }
    ensures told { version.new ≡ record { major = 0; minor = 2; patch = 0 } }
{
    *version = VERSION;
    0
}
