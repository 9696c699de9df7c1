//! Commands to a table, and its replies.

/// A command to a table of hashes.
#[derive(Debug, Clone, Copy)]
pub enum TableCommand {
    /// To insert a hash, which may be any 64 bits: 0 and hashes of at least the table's theta are screened.
    Insert(u64),
    /// To find a hash.
    Find(u64),
    /// To lower theta to the (k+1)th smallest hash if more than k are retained, and keep the k below it.
    Trim,
    /// To remove all hashes and restore the starting theta.
    Reset,
}

/// A table's reply to a command.
#[derive(Debug, Clone, Copy, PartialEq, Eq)]
pub enum TableReply {
    /// Whether the hash to insert is new and below theta.
    Inserted(bool),
    /// Whether a hash is retained.
    Found(bool),
    /// The table after a trim or a reset.
    Done {
        /// How many hashes are retained.
        count: usize,
        /// Theta, from 1 to `MAX_THETA`.
        theta: u64,
    },
}
