//! What the program does for one command: its options and its files. The other modules add a method for each command.

use distinct_arguments::Options;
use distinct_inputs::Inputs;
use distinct_messages::Failure;
use keys_sketches::Sources;
use std::alloc::Global;

/// What a command writes, and the failures of the files that it passes over.
#[derive(Debug, Drop)]
pub struct Answer {
    pub bytes: Vec<u8>,
    pub passed: Vec<Failure>,
}

/// The options of a command, the seed of its hashes, and the sources that it reads.
#[derive(Drop)]
pub struct Job<'a, S: Sources> {
    pub alloc: Global,
    pub options: &'a Options<'a>,
    pub seed: u64,
    pub inputs: Inputs<'a, S>,
}
