// The versions of the format.
ghost use Rattle.std.specs.Prelude.{◌≡◌, IfSome, IfNone};
ghost use Rattle.tmem_state.specs.declared.version.Version.{Version as VersionOf};
ghost use Rattle.tmem_state.specs.Versions.{version_number, version_byte};

/// A version of the format. Both are read, and the second is written. Only the second has retired names in its records.
#[derive(Clone, Copy, Debug, PartialEq, Eq)]
pub enum Version {
    One,
    Two,
}

impl Version {
    /// The version that block 0 has this number for, or `None` where there is no such version.
    pub fn of_block(number: u8) -> Option<Version>
        ensures found { IfSome result (λ v. number ≡ version_number v) }
        ensures none { IfNone result ((v : VersionOf) → number ≡ version_number v → ⊥) }
    {
        match number {
            1 => Some(Version::One),
            2 => Some(Version::Two),
            _ => None,
        }
    }

    /// The version of an image whose header ends with this byte, or `None` where there is no such version.
    pub fn of_byte(byte: u8) -> Option<Version>
        ensures found { IfSome result (λ v. byte ≡ version_byte v) }
        ensures none { IfNone result ((v : VersionOf) → byte ≡ version_byte v → ⊥) }
    {
        match byte {
            0 => Some(Version::One),
            2 => Some(Version::Two),
            _ => None,
        }
    }

    /// Its number in block 0.
    pub fn number(self) -> u8
        ensures { result ≡ version_number self }
    {
        match self {
            Version::One => 1,
            Version::Two => 2,
        }
    }

    /// The byte that the header of an image of this version ends with.
    pub fn byte(self) -> u8
        ensures { result ≡ version_byte self }
    {
        match self {
            Version::One => 0,
            Version::Two => 2,
        }
    }
}
