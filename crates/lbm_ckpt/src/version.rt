//! The versions of a checkpoint.

ghost use Rattle.std.specs.Prelude.{IsTrue, ◌≡◌, ◌==◌, ◌&&◌, ◌≤◌, ◌+◌, length, take, drop};
ghost use Rattle.std.specs.Str.{bytes_eq};
ghost use Rattle.lbm_space.specs.Torus.{IsSpace};
ghost use Rattle.lbm_ckpt.specs.declared.version.Version.TheVariants.{Two};
ghost use Rattle.lbm_ckpt.specs.Ckpt.{magic, magic_of, number, version_of, box, box_len, box_of, size, is_fitting, is_short};

use lbm_space::Space;

/// A form of a checkpoint.
#[derive(Clone, Copy, Debug, PartialEq, Eq)]
pub(crate) enum Version {
    /// An old form, which is read and no longer written.
    One,
    /// The form that is written.
    Two,
}

impl Version {
    /// What a file of this version begins with.
    pub fn magic(self) -> [u8; 8]
        ensures { result ≡ magic self }
    {
        match self {
            Version::One => *b"LBMCKPT1",
            Version::Two => *b"LBMCKPT2",
        }
    }

    /// Whether the file begins as one of this version.
    fn begins(self, bytes: &[u8]) -> bool
        requires { 8 ≤ length bytes.now }
        ensures { result ≡ bytes_eq (magic_of bytes.now) (magic self) }
    {
        &bytes[..8] == self.magic().as_slice()
    }

    /// The version of a file, if it begins as one.
    pub fn of(bytes: &[u8]) -> Option<Version>
        requires { 8 ≤ length bytes.now }
        ensures { result ≡ version_of bytes.now }
    {
        if Version::One.begins(bytes) {
            Some(Version::One)
        } else if Version::Two.begins(bytes) {
            Some(Version::Two)
        } else {
            None
        }
    }

    /// How many bytes tell of the box.
    pub fn box_len(self) -> usize
        ensures { result ≡ box_len self }
    {
        match self {
            Version::One => 4,
            Version::Two => 16,
        }
    }

    /// How many bytes a file has.
    pub fn size(self, space: &Space, q: u32) -> u64
        ensures value { result ≡ size self space.now q }
        ensures valid { IsSpace space.now }
    {
        80 + self.box_len() as u64 + 4 * u64::from(q) * u64::from(space.cells())
    }

    /// Whether the file tells of this box.
    fn has_box(self, bytes: &[u8], space: &Space, q: u32) -> bool
        requires { 84 ≤ length bytes.now }
        ensures { result ≡ bytes_eq (box_of self bytes.now) (box self space.now q) }
    {
        match self {
            Version::One => &bytes[48..52] == space.cells().to_be_bytes().as_slice(),
            Version::Two => &bytes[48..64] == box_bytes(space, q).as_slice(),
        }
    }

    /// Whether the file is of this box, and as long as it has to be.
    pub fn fits(self, bytes: &[u8], space: &Space, q: u32) -> bool
        requires { 84 ≤ length bytes.now }
        ensures value { result ≡ is_fitting self space.now q bytes.now }
        ensures valid { IsTrue result → IsSpace space.now }
    {
        self.has_box(bytes, space, q) && bytes.len() as u64 == self.size(space, q)
    }
}

/// What version 2 tells of the box: the sides and the number of directions.
pub(crate) fn box_bytes(space: &Space, q: u32) -> [u8; 16]
    ensures { result ≡ box Two space.now q }
{
    let [nx, ny, nz] = space.sides();
    let mut told = [0; 16];
    told[..4].copy_from_slice(&nx.to_be_bytes());
    told[4..8].copy_from_slice(&ny.to_be_bytes());
    told[8..12].copy_from_slice(&nz.to_be_bytes());
    told[12..].copy_from_slice(&q.to_be_bytes());
    told
}

/// Whether the file has fewer bytes than the shortest of its version.
pub(crate) fn is_short(bytes: &[u8]) -> bool
    ensures { result ≡ is_short bytes.now }
{
    bytes.len() < 84 || (Version::Two.begins(bytes) && bytes.len() < 96)
}
