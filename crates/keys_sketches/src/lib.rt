//! Theta sketches of lines: made from readers, written as images and read again, united, intersected and subtracted.
//!
//! The main promise is that of `unite_images`: it unites the images of texts that were sketched apart, in any order,
//! to the image of all their lines, byte for byte. `image_of_texts` sketches texts in memory apart and unites their
//! images.
//!
//! `OpenText` inserts the lines of a text that comes in pieces. `read_line` reads a whole line, such as an image in
//! hexadecimal.
//!
//! The sketch of the lines of a reader, and its image as text:
//!
//! ```
//! let mut block = vec![in alloc; 0u8; BLOCK]?;
//! let hashing = Hashing { key: Key::Line, seed: 9001 };
//! let sketch = sketch_lines(alloc, hashing, 12, &mut reader, &mut block, &mut watch)?;
//! let line = hex_line(alloc, image_of(&sketch)?.as_slice())?;
//! ```
#![tactic(auto)]

mod batches;
mod header;
mod hex;
mod image_union;
mod images;
pub mod laws;
mod pieces;
mod sketching;
mod sources;
mod uniting;
mod whole_lines;

pub use batches::{Batch, SketchUnion};
pub use core_images::Flaw as ImageFlaw;
pub use header::{Flaw, entry_count, flaw_of, image_length, sums_count, sums_flaw_of, sums_length};
pub use hex::{hex_line, put_byte, read_hex};
pub use image_union::{ImageUnion, add_images};
pub use images::{difference, image_of, intersection, read_image};
pub use pieces::OpenText;
pub use sketching::{
    ReadError, Watch, add_lines, new_sketch, read_failure, sketch_lines, trim_and_compact,
};
pub use sources::{BLOCK, Sources, TextReader, Texts, add_sources, sketch_sources};
pub use uniting::{United, image_of_texts, unite_images, united_image, views_of};
pub use whole_lines::read_line;
