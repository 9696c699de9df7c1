//! Files that have no lines: compressed ones, and images of sketches, by their first bytes.
ghost use Rattle.std.specs.Prelude.{◌≡◌};
ghost use Rattle.distinct_messages.specs.Natures.{begins_image, nature_of};

/// What a file has in place of lines.
#[derive(Clone, Copy, Debug, PartialEq, Eq)]
pub enum Nature {
    /// A stream that gzip compressed.
    Gzip,
    /// A frame that zstd compressed.
    Zstd,
    /// A stream that xz compressed.
    Xz,
    /// A stream that bzip2 compressed.
    Bzip2,
    /// The image of a theta sketch.
    Sketch,
    /// The image of a sketch of sums.
    Sums,
}

/// Whether bytes begin an image of a sketch of this family: from 1 to 4 words of preamble, in version 1, 2 or 3.
fn begins_image(bytes: &[u8], family: u8) -> bool
    ensures { result ≡ begins_image family bytes.now }
{
    match bytes {
        [words, version, third, ..] => {
            1 <= *words && *words <= 4 && 1 <= *version && *version <= 3 && *third == family
        }
        _ => false,
    }
}

/// The bytes with which a file of each kind of compression begins.
const GZIP: [u8; 2] = [0x1f, 0x8b];

const ZSTD: [u8; 4] = [0x28, 0xb5, 0x2f, 0xfd];

const XZ: [u8; 6] = [0xfd, 0x37, 0x7a, 0x58, 0x5a, 0];

const BZIP2: [u8; 3] = [b'B', b'Z', b'h'];

/// What a file that begins with these bytes has in place of lines; `None` if it may have lines.
pub fn nature_of(bytes: &[u8]) -> Option<Nature>
    ensures { result ≡ nature_of bytes.now }
{
    if bytes.starts_with(&GZIP) {
        Some(Nature::Gzip)
    } else if bytes.starts_with(&ZSTD) {
        Some(Nature::Zstd)
    } else if bytes.starts_with(&XZ) {
        Some(Nature::Xz)
    } else if bytes.starts_with(&BZIP2) {
        Some(Nature::Bzip2)
    } else if begins_image(bytes, 3) {
        Some(Nature::Sketch)
    } else if begins_image(bytes, 9) {
        Some(Nature::Sums)
    } else {
        None
    }
}
