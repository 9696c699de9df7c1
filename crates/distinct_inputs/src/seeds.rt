//! The seed of a request.
ghost use Rattle.std.specs.Prelude.{◌≡◌, ◌≢◌, None, Some, IfOk, IfErr, IfSome, OnOk};
ghost use Rattle.sketch_base.specs.Seed.{seed_hash};
ghost use Rattle.distinct_arguments.specs.Faults.{options_of};
ghost use Rattle.distinct_arguments.specs.Settings.{seed_file};
ghost use Rattle.distinct_inputs.specs.Seeds.{seed_in, IsSeedOf};
ghost use Rattle.distinct_messages.specs.Failures.{UnreadableIf};
ghost use Rattle.distinct_inputs.specs.Failures.{IsOfSeed, IsOfSeedFile};

use crate::inputs::{open_input, read_whole};
use distinct_arguments::{Fault, Options, Seed};
use distinct_messages::{Failure, display_name};
use keys_sketches::TextReader;
use sketch_base::{ErrorKind, compute_seed_hash};
use std::alloc::Global;

/// The seed of a command: the number that `--seed` names, or that its file has, with blanks around it allowed. It
/// fails with `ZeroSeed` only for a number whose seed hash is 0, with `NoSeed` or `Unreadable` only for a file, and
/// if memory is refused.
pub fn seed_of(rt: &HostRuntime, options: &Options<'_>) -> Result<u64, Failure>
    ensures seeded { IfOk result (λ seed. seed_hash seed ≢ 0) }
    ensures number { IfOk result (IsSeedOf (options_of options.now).seed) }
    ensures failed { IfErr result (IsOfSeed (options_of options.now).seed) }
{
    match options.seed {
        Seed::Number(seed) => match compute_seed_hash(seed, ErrorKind::InvalidArgument) {
            Ok(_) => Ok(seed),
            Err(_) => Err(Failure::Arguments(Fault::ZeroSeed(seed))),
        },
        Seed::File(name) => read_seed(rt, name),
    }
}

/// The seed that the bytes of a seed file spell: decimal digits alone, with blanks around them allowed, of a number
/// below 2^64 whose seed hash isn't 0.
fn seed_in(bytes: &[u8]) -> Option<u64>
    ensures { result ≡ seed_in bytes.now }
{
    match str::from_utf8(bytes.trim_ascii()) {
        Ok(text) => distinct_arguments::seed_of(text),
        Err(_) => None,
    }
}

/// The seed that the bytes spell that a reader has left, which has this name in messages. It fails with `NoSeed` only
/// if they spell none.
pub fn seed_from<R: TextReader>(alloc: Global, name: &str, reader: &mut R) -> Result<u64, Failure>
    ensures seed { IfSome (R.remaining reader.old) (λ bytes. IfOk result (λ seed. seed_in bytes ≡ Some seed)) }
    ensures seeded { IfOk result (λ seed. seed_hash seed ≢ 0) }
    ensures failed { IfErr result (IsOfSeedFile name.now (R.remaining reader.old)) }
    ensures fallible { IfErr result (UnreadableIf R.may_fail) }
{
    let bytes = read_whole(alloc, name, reader)?;
    match seed_in(bytes.as_slice()) {
        Some(seed) => Ok(seed),
        None => match String::from_str(alloc, display_name(name)) {
            Ok(name) => Err(Failure::NoSeed(name)),
            Err(_) => Err(Failure::Memory),
        },
    }
}

/// The seed that a file has.
fn read_seed(rt: &HostRuntime, name: &str) -> Result<u64, Failure>
    ensures seeded { IfOk result (λ seed. seed_hash seed ≢ 0) }
    ensures failed { IfErr result (IsOfSeed (seed_file name.now)) }
{
    let mut input = open_input(rt, name)?;
    seed_from(rt.alloc(), name, &mut input)
}
