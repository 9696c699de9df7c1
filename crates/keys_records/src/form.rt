//! What a reader of records is asked for.
ghost use Rattle.std.specs.Prelude.{◌≡◌};
ghost use Rattle.keys_records.specs.Fields.{columns_of, all_columns, has_first, without_first};

/// The byte between two fields of a line that is passed on: the unit separator of ASCII.
pub const BETWEEN: u8 = 31;

/// The fields that are chosen: all, or those with up to three numbers.
#[derive(Clone, Copy, Debug, PartialEq, Eq)]
pub struct Columns {
    all: bool,
    first: u64,
    second: u64,
    third: u64,
}

impl Columns {
    /// The fields with these numbers, from 1. A number of 0 is none.
    pub fn new(first: u64, second: u64, third: u64) -> Columns
        ensures { result ≡ columns_of first second third }
    {
        Columns {
            all: false,
            first,
            second,
            third,
        }
    }

    /// All fields.
    pub fn all() -> Columns
        ensures { result ≡ all_columns }
    {
        Columns {
            all: true,
            first: 0,
            second: 0,
            third: 0,
        }
    }

    /// Whether the first field is chosen.
    #[inline(always)]
    pub(crate) fn has_first(self) -> bool
        ensures { result ≡ has_first self }
    {
        self.all || self.first == 1 || self.second == 1 || self.third == 1
    }

    /// The numbers behind the first field, counted from there.
    #[inline(always)]
    pub(crate) fn without_first(self) -> Columns
        ensures { result ≡ without_first self }
    {
        Columns {
            all: self.all,
            first: self.first.saturating_sub(1),
            second: self.second.saturating_sub(1),
            third: self.third.saturating_sub(1),
        }
    }
}

/// How a text is read.
#[derive(Clone, Copy, Debug, PartialEq, Eq)]
pub struct Form {
    /// The byte between two fields, which is no quote, CR or LF.
    pub separator: u8,
    /// Whether the first record is passed over.
    pub header: bool,
    /// The fields whose values are passed on.
    pub columns: Columns,
}
