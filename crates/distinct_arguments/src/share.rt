//! The part of each file that a command reads.
ghost use Rattle.std.specs.Prelude.{◌≤◌, ◌<◌};

/// One of so many equal parts of each file.
#[derive(Clone, Copy, Debug, PartialEq, Eq)]
pub struct Share {
    /// Which part, from 1.
    pub index: u32,
    /// How many parts there are.
    pub parts: u32,
    ghost from_one: { 0 < index },
    ghost within: { index ≤ parts },
}
