//! What the program prints beside its answer: remarks on it, and reports of progress.

use crate::failure::display_name;
use crate::nature::Nature;
use distinct_arguments::Escaped;
use keys_groups::GroupWatch;
use keys_reports::Report;
use keys_sketches::Watch;
use keys_sums::SumWatch;
use std::fmt;

/// An image retains more hashes than the union keeps.
#[derive(Clone, Copy, Debug)]
pub struct Coarser<'a> {
    /// The name, in messages, of the image's file.
    pub name: &'a str,
    /// How many hashes it retains.
    pub retained: u64,
    /// The binary logarithm of the union's nominal entries.
    pub lg_k: u8,
}

/// An image was made with another seed than that of the command, and is read all the same.
#[derive(Clone, Copy, Debug)]
pub struct OtherSeed<'a> {
    /// The name, in messages, of the image's file.
    pub name: &'a str,
    /// The number of the image's line, from 1; 0 if the whole file is meant.
    pub line: u64,
}

impl fmt::Display for OtherSeed<'_> {
    fn fmt<W: fmt::Write>(&self, f: &mut fmt::Formatter<W>) -> fmt::Result {
        let name = Escaped(self.name);
        let line = self.line;
        write!(f, "warning: {name}")?;
        if line != 0 {
            write!(f, ": line {line}")?;
        }
        write!(
            f,
            " was made with another seed: pass that --seed to combine it"
        )
    }
}

/// A file whose lines were requested has none.
#[derive(Clone, Copy, Debug)]
pub struct NoLines<'a> {
    /// The file's name, as it was given.
    pub name: &'a str,
    /// What it has in place of lines.
    pub nature: Nature,
    /// The command, which reads the file's bytes as lines.
    pub command: &'a str,
}

impl NoLines<'_> {
    /// Writes that the file is compressed, and how its lines can be read: by a program that writes them.
    fn put_compressed<W: fmt::Write>(
        &self,
        f: &mut fmt::Formatter<W>,
        kind: &str,
        program: &str,
    ) -> fmt::Result {
        let name = Escaped(display_name(self.name));
        let command = self.command;
        write!(
            f,
            "warning: {name} is compressed by {kind}, and its bytes are read as lines: {program}"
        )?;
        if self.name != "-" {
            write!(f, " {}", Escaped(self.name))?;
        }
        write!(f, " | distinct {command}")
    }
}

impl fmt::Display for NoLines<'_> {
    fn fmt<W: fmt::Write>(&self, f: &mut fmt::Formatter<W>) -> fmt::Result {
        let name = Escaped(display_name(self.name));
        let file = Escaped(self.name);
        match self.nature {
            Nature::Gzip => self.put_compressed(f, "gzip", "zcat"),
            Nature::Zstd => self.put_compressed(f, "zstd", "zstdcat"),
            Nature::Xz => self.put_compressed(f, "xz", "xzcat"),
            Nature::Bzip2 => self.put_compressed(f, "bzip2", "bzcat"),
            Nature::Sketch => write!(
                f,
                "warning: {name} is the image of a sketch, and its bytes are read as lines: distinct show {file}"
            ),
            Nature::Sums => write!(
                f,
                "warning: {name} is an image of sums, and its bytes are read as lines: distinct eval --sums '{file}'"
            ),
        }
    }
}

/// Lines of a file were skipped, since they have no number.
#[derive(Clone, Copy, Debug)]
pub struct Skipped<'a> {
    /// The file's name, as it was given.
    pub name: &'a str,
    /// How many lines.
    pub count: u64,
}

impl fmt::Display for Skipped<'_> {
    fn fmt<W: fmt::Write>(&self, f: &mut fmt::Formatter<W>) -> fmt::Result {
        let name = Escaped(display_name(self.name));
        let count = self.count;
        if count == 1 {
            write!(f, "{name}: 1 line without a number was skipped")
        } else {
            write!(f, "{name}: {count} lines without a number were skipped")
        }
    }
}

/// A remark on an answer.
#[derive(Clone, Copy, Debug)]
pub enum Remark<'a> {
    /// A file has no lines.
    NoLines(NoLines<'a>),
    /// A union is less exact than one of its images.
    Coarser(Coarser<'a>),
    /// An image is of another seed.
    OtherSeed(OtherSeed<'a>),
    /// Lines of a file were skipped.
    Skipped(Skipped<'a>),
    /// The answer, an image, has an estimate.
    Estimated(Report),
    /// The answer, a number alone, is an estimate: for who reads it on a terminal.
    Rough(Report),
}

impl fmt::Display for Remark<'_> {
    fn fmt<W: fmt::Write>(&self, f: &mut fmt::Formatter<W>) -> fmt::Result {
        match self {
            Remark::NoLines(file) => write!(f, "{file}"),
            Remark::Coarser(coarser) => {
                let name = Escaped(coarser.name);
                let retained = coarser.retained;
                let lg_k = coarser.lg_k;
                let kept = 1u64 << (lg_k % 64);
                write!(
                    f,
                    "warning: {name} retains {retained} hashes, and --lg-k {lg_k} keeps {kept}: the union is less exact than its images; pass a greater --lg-k"
                )
            }
            Remark::OtherSeed(image) => write!(f, "{image}"),
            Remark::Skipped(lines) => write!(f, "{lines}"),
            Remark::Estimated(report) | Remark::Rough(report) => {
                let estimate = report.estimate;
                let lower = report.interval.lower;
                let upper = report.interval.upper;
                write!(f, "about {estimate} lines, from {lower} to {upper}")
            }
        }
    }
}

/// Takes remarks, and watches while lines are sketched, put into groups or summed.
pub trait Console: Watch + GroupWatch + SumWatch {
    /// Takes a remark on the answer.
    fn remark(&mut self, remark: Remark<'_>);
}
