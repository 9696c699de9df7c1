//! How much a table grows at once.
ghost use Rattle.std.specs.Prelude.{◌≡◌, ◌^◌};
ghost use Rattle.core_table.specs.ResizeFactor.{lg_of};

/// By how much a table multiplies its slots when it grows.
#[derive(Debug, Clone, Copy, PartialEq, Eq)]
pub enum ResizeFactor {
    /// It has its full size from the start.
    X1,
    /// Twice the slots.
    X2,
    /// Four times the slots.
    X4,
    /// Eight times the slots.
    X8,
}

impl ResizeFactor {
    /// The binary logarithm of the factor, from 0 to 3.
    pub fn lg_value(self) -> u8
        ensures { result ≡ lg_of self }
    {
        match self {
            ResizeFactor::X1 => 0,
            ResizeFactor::X2 => 1,
            ResizeFactor::X4 => 2,
            ResizeFactor::X8 => 3,
        }
    }

    /// The factor: 1, 2, 4 or 8.
    pub fn value(self) -> usize
        ensures { result ≡ 2 ^ lg_of self }
    {
        match self {
            ResizeFactor::X1 => 1,
            ResizeFactor::X2 => 2,
            ResizeFactor::X4 => 4,
            ResizeFactor::X8 => 8,
        }
    }
}
