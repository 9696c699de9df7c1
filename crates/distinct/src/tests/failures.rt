//! Tests of the messages and statuses of failures that no case of `tests/distinct` has.
use distinct_arguments::Fault;
use distinct_messages::Failure;
use std::alloc::{AllocError, Global};
use std::io::{Error, ErrorKind};
use std::test::Fail;

/// A kind of failure.
#[derive(Clone, Copy, Debug)]
enum Kind {
    NotText,
    ArgumentsMemory,
    Terminal,
    NoSeed,
    NoName,
    Memory,
    NotWritten,
    LongName,
}

fn failure_of(alloc: Global, kind: Kind) -> Result<Failure, AllocError> {
    let name = String::from_str(alloc, "it")?;
    Ok(match kind {
        Kind::NotText => Failure::NotText(3, name),
        Kind::ArgumentsMemory => Failure::Arguments(Fault::Memory),
        Kind::Terminal => Failure::Terminal,
        Kind::NoSeed => Failure::NoSeed(name),
        Kind::NoName => Failure::NoName(name, 2),
        Kind::Memory => Failure::Memory,
        Kind::NotWritten => Failure::NotWritten(name, Error::from(ErrorKind::StorageFull)),
        Kind::LongName => Failure::LongName(name, 247),
    })
}

/// The status of a kind of failure, and its message.
fn message_of(alloc: Global, kind: Kind) -> Result<(u8, String), AllocError> {
    let failure = failure_of(alloc, kind)?;
    let message = format!(in alloc; "{failure}")?;
    Ok((failure.status(), message))
}

#[test]
fn prints_rare_failures(rt: HostRuntime) -> Result<(), Fail> {
    for (kind, status, message) in [
        (
            Kind::NotText,
            2,
            "argument 3, it, is not UTF-8 text: rename the file, or read it from standard input (distinct .. < FILE)",
        ),
        (Kind::ArgumentsMemory, 1, "out of memory"),
        (
            Kind::Terminal,
            2,
            "standard output is a terminal, and an image is not text: pass --output FILE, or --hex",
        ),
        (
            Kind::NoSeed,
            1,
            "it: does not contain a valid seed (a number below 2^64 whose seed hash is not 0)",
        ),
        (Kind::NoName, 1, "it: name 2 is empty or not UTF-8 text"),
        (Kind::Memory, 1, "out of memory"),
        (Kind::NotWritten, 1, "it: no storage space"),
        (
            Kind::LongName,
            1,
            "it: the file's name has 247 bytes, and at most 246 are allowed: write lines by --hex, without --output-dir",
        ),
    ] {
        let printed = message_of(rt.alloc(), kind)?;
        assert_eq!(rt;
            (printed.0, printed.1.as_str()),
            (status, message),
            "{kind:?}"
        );
    }
    Ok(())
}

/// Whether the program ends without a message, if writing to this name fails for such a reason.
fn is_silent(alloc: Global, name: &str, kind: ErrorKind) -> Result<bool, AllocError> {
    let name = String::from_str(alloc, name)?;
    Ok(Failure::NotWritten(name, Error::from(kind)).is_closed_output())
}

#[test]
fn ends_without_a_message_if_its_output_is_closed(rt: HostRuntime) -> Result<(), Fail> {
    for (name, kind, silent) in [
        ("standard output", ErrorKind::BrokenPipe, true),
        ("standard output", ErrorKind::StorageFull, false),
        ("it", ErrorKind::BrokenPipe, false),
    ] {
        assert_eq!(rt; is_silent(rt.alloc(), name, kind)?, silent, "{name}");
    }
    Ok(())
}
