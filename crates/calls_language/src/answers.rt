//! The answers of calls that are made one after another.
use std::alloc::{AllocError, Global};

/// Answers with a comma between. A run of equal answers is written once, with its length if that is more than one.
#[derive(Drop)]
pub struct Answers {
    text: String,
    last: String,
    run: u64,
    refused: u64,
}

impl Answers {
    /// No answers.
    pub fn new(plain: Global) -> Answers {
        Answers {
            text: String::new(plain),
            last: String::new(plain),
            run: 0,
            refused: 0,
        }
    }

    /// Writes the last run.
    fn end_run(&mut self) -> Result<(), AllocError> {
        if self.run == 0 {
            return Ok(());
        }
        if !self.text.is_empty() {
            self.text.push(',')?;
        }
        self.text.push_str(self.last.as_str())?;
        if 1 < self.run {
            let run = self.run;
            write!(self.text, "*{run}")?;
        }
        Ok(())
    }

    /// Adds an answer, and the number of requests that were refused for it.
    pub fn push(&mut self, answer: String, refused: u64) -> Result<(), AllocError> {
        self.refused = self.refused.saturating_add(refused);
        if 0 < self.run && self.last.as_str() == answer.as_str() {
            self.run = self.run.saturating_add(1);
            return Ok(());
        }
        self.end_run()?;
        self.last = answer;
        self.run = 1;
        Ok(())
    }

    /// How many requests were refused for all answers.
    pub fn refused(&self) -> u64 {
        self.refused
    }

    /// Appends the answers.
    pub fn put(mut self, out: &mut String) -> Result<(), AllocError> {
        self.end_run()?;
        out.push_str(self.text.as_str())
    }
}
