//! The versions of Unicode.
ghost use Rattle.std.specs.Prelude.{◌≡◌};
ghost use Rattle.ucd.specs.Versions.{number_count};
ghost use Rattle.ucd.specs.Images.{version_number};

/// The default Unicode version of these libraries, and the version of the table files that `make ucd` copies.
pub const UNICODE_VERSION: &str = "Unicode 15.0";

/// A Unicode version that tables can have.
#[derive(Clone, Copy, Debug, PartialEq, Eq)]
pub enum Version {
    V15_0,
    V17_0,
}

impl Version {
    /// Returns how many line-breaking numbers the version has. Each encodes a class and a detail.
    pub(crate) fn number_count(self) -> u16
        ensures { result ≡ number_count self }
    {
        match self {
            Version::V15_0 => 43,
            Version::V17_0 => 56,
        }
    }

    /// Returns the number that encodes the version in images.
    pub(crate) fn number(self) -> u32
        ensures { result ≡ version_number self }
    {
        match self {
            Version::V15_0 => 0x000F_0000,
            Version::V17_0 => 0x0011_0000,
        }
    }
}
