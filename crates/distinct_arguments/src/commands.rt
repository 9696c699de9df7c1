//! Commands, and what arguments request.

use crate::options::Options;

/// How sketches are combined into one: `Meet` is the intersection, and `Minus` the difference.
#[derive(Clone, Copy, Debug, PartialEq, Eq)]
pub enum Operator {
    Union,
    Meet,
    Minus,
}

/// What the program does with its files.
#[derive(Clone, Copy, Debug, PartialEq, Eq)]
pub enum Command {
    /// Prints how many distinct lines there are.
    Count,
    /// Writes the sketch of the lines as an image.
    Sketch,
    /// Writes the image of several images combined.
    Combine(Operator),
    /// Prints one line per image.
    Show,
    /// Evaluates an expression over the sketches of files.
    Eval,
    /// Prints how many keys occur how often.
    Visits,
    /// Prints the total of the numbers in a field of lines.
    Sum,
    /// Prints how similar two images are.
    Similarity,
    /// Prints how similar each two of several images are.
    Matrix,
}

/// What the program prints without reading a file.
#[derive(Clone, Copy, Debug, PartialEq, Eq)]
pub enum Topic {
    /// What the program does.
    Program,
    Version,
    /// What a command does, and its options.
    Help(Command),
}

/// What the arguments request: to print a text, or to run a command with options on files.
#[derive(Clone, Copy, Debug)]
pub enum Request<'a> {
    Print(Topic),
    Run(Command, Options<'a>, &'a [String]),
}
