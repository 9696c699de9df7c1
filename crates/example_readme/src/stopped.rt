//! Why the program ended early.
use std::io;
use theta_sketches::{Error, ErrorKind};

/// Why the program ended early.
#[derive(Debug, Drop)]
pub enum Stopped {
    Sketch(ErrorKind),
    Io(io::Error),
}

impl From<Error> for Stopped {
    fn from(error: Error) -> Stopped {
        Stopped::Sketch(error.kind())
    }
}

impl From<io::Error> for Stopped {
    fn from(error: io::Error) -> Stopped {
        Stopped::Io(error)
    }
}
