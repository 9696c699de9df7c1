//! Lines in groups, by a field, and a sketch for each group.
//!
//! The promise is that of `group_sources`: the groups are exactly those of the lines, each once and in ascending
//! order, and each has the sketch of its own lines. A line finds its group by a hash of the group's name, and the
//! groups are sorted once at the end. The hash has no secret: names that are chosen to share their places go into a
//! balanced tree, so a line is added in time logarithmic in the number of groups, whatever their names are.
//!
//! ```
//! let hashing = Hashing { key: Key::field(3, b'\t'), seed: 9001 };
//! let grouping = Grouping { by: Key::field(1, b'\t'), hashing, lg_k: 12 };
//! let mut groups = group_sources(alloc, grouping, &mut sources, &mut watch)?;
//! while let Some(group) = groups.next_group()? {
//!     let name = group.name.as_slice();
//!     let sketch = &group.sketch;
//! }
//! ```
#![tactic(auto)]

mod files;
mod groups;
pub mod laws;
mod names;
mod order;
mod reading;
mod sketched;
mod tabs;
mod united;
mod uniting;

pub use files::{GroupFile, file_name, files_of};
pub use groups::{Group, Grouping, Groups};
pub use order::names_ascend;
pub use reading::{GroupWatch, group_sources, next_line, without_lf};
pub use sketched::{SketchedGroups, sketched_text};
pub use united::{LineFlaw, UnitedGroups, image_line};
pub use uniting::{UniteError, unite_groups, united_text};
