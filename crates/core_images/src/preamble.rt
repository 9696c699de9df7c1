//! The preamble of an image, before its entries.
ghost use Rattle.std.specs.Prelude.{◌≡◌, ◌≤◌, length};
ghost use Rattle.core_images.specs.Preamble.{announced, count_at, theta_at, seed_hash_at};

/// What a preamble says about the entries.
#[derive(Debug, Clone, Copy)]
pub struct Preamble {
    /// The offset of the first entry, in bytes.
    pub start: usize,
    /// How many entries there are.
    pub count: u32,
    /// The image's theta.
    pub theta: u64,
    /// Whether the entries ascend by hash.
    pub ordered: bool,
}

/// What the preamble of an image is read as.
#[derive(Debug, Clone, Copy)]
pub enum ImageLayout {
    /// The empty sketch.
    Empty,
    /// A sketch that is not empty, whose entries follow a preamble.
    Filled(Preamble),
}

/// The seed hash of an image, in its bytes 6 and 7.
pub fn seed_hash_at(bytes: &[u8]) -> u16
    requires { 8 ≤ length bytes.now }
    ensures { result ≡ seed_hash_at bytes.now }
{
    u16::from_le_bytes([bytes[6], bytes[7]])
}

/// The count of entries of an image, in its bytes 8 to 11.
pub fn count_at(bytes: &[u8]) -> u32
    requires { 12 ≤ length bytes.now }
    ensures { result ≡ count_at bytes.now }
{
    u32::from_le_bytes([bytes[8], bytes[9], bytes[10], bytes[11]])
}

/// The theta of an image, in its bytes 16 to 23.
pub fn theta_at(bytes: &[u8]) -> u64
    requires { 24 ≤ length bytes.now }
    ensures { result ≡ theta_at bytes.now }
{
    u64::from_le_bytes([
        bytes[16], bytes[17], bytes[18], bytes[19], bytes[20], bytes[21], bytes[22], bytes[23],
    ])
}

/// The preamble of `longs` preamble longs, words of eight bytes, before `count` entries.
pub fn announced(longs: u8, count: u32, theta: u64, ordered: bool) -> Preamble
    ensures { result ≡ announced longs count theta ordered }
{
    Preamble {
        start: 8 * longs as usize,
        count,
        theta,
        ordered,
    }
}
