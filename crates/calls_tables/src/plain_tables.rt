//! `plain_table` and `trait_table`: the two tables, through the contract that both have.
use crate::hash_tables::table_of;
use crate::runs::Runnable;
use crate::tables::table_entries;
use calls_language::entries::{put_entries, shown_entries};
use calls_language::settings::Settings as Words;
use calls_language::words::Fault;
use sketch_base::DEFAULT_UPDATE_SEED;
use std::alloc::{AllocError, Allocator};
use theta_core::{DEFAULT_LG_K, MAX_THETA, ResizeFactor, ThetaEntry, ThetaHashTable};
use theta_tables::{PlainTable, ThetaTable};

impl<A: Allocator + Clone + Drop> Runnable<A> for PlainTable<ThetaEntry, A> {
    fn make(alloc: A, words: Words) -> Result<Self, Fault> {
        let lg_k = words.lg_k.unwrap_or(DEFAULT_LG_K);
        let factor = words.factor.unwrap_or(ResizeFactor::X8);
        let start = words.start.unwrap_or(MAX_THETA);
        let seed = words.seed.unwrap_or(DEFAULT_UPDATE_SEED);
        Ok(PlainTable::new(alloc, lg_k, factor, start, seed)?)
    }

    fn seeds(&self) -> (u64, u16) {
        (self.seed(), self.seed_hash())
    }

    fn put(&self, text: &mut String) -> Result<(), AllocError> {
        let count = self.num_retained();
        let theta = self.retention_theta();
        write!(text, "count={count} theta={theta} ")?;
        put_entries(
            text,
            shown_entries(*text.allocator(), self.entries())?.as_slice(),
        )
    }
}

impl<A: Allocator + Clone + Drop> Runnable<A> for ThetaHashTable<A> {
    fn make(alloc: A, words: Words) -> Result<Self, Fault> {
        table_of(alloc, words)
    }

    fn seeds(&self) -> (u64, u16) {
        (self.seed(), self.seed_hash())
    }

    fn put(&self, text: &mut String) -> Result<(), AllocError> {
        let count = self.num_retained();
        let theta = self.retention_theta();
        write!(text, "count={count} theta={theta} ")?;
        put_entries(text, table_entries(*text.allocator(), self)?.as_slice())
    }
}
