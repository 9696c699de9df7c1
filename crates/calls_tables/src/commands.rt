//! Commands to tables in words, and the replies to them.
use calls_language::series::hashes_of;
use calls_language::words::Fault;
use std::alloc::{AllocError, Global};
use theta_tables::{TableCommand, TableReply};

/// The commands of words, and how many each word has.
#[derive(Drop)]
pub struct Commands {
    pub list: Vec<TableCommand>,
    counts: Vec<usize>,
}

/// Appends the commands of a word, and returns how many they are.
fn add_word(list: &mut Vec<TableCommand>, plain: Global, word: &str) -> Result<usize, Fault> {
    let before = list.len();
    match word.split_once(':') {
        Some(("insert", series)) => {
            for hash in &hashes_of(plain, series)? {
                list.push(TableCommand::Insert(*hash))?;
            }
        }
        Some(("find", series)) => {
            for hash in &hashes_of(plain, series)? {
                list.push(TableCommand::Find(*hash))?;
            }
        }
        None if word == "trim" => list.push(TableCommand::Trim)?,
        None if word == "reset" => list.push(TableCommand::Reset)?,
        _ => return Err(Fault::Unknown),
    }
    Ok(list.len().saturating_sub(before))
}

impl Commands {
    /// The commands of words with blanks between.
    pub fn read(plain: Global, words: &str) -> Result<Commands, Fault> {
        let mut list = Vec::new(plain);
        let mut counts = Vec::new(plain);
        for word in words.split(' ') {
            counts.push(add_word(&mut list, plain, word)?)?;
        }
        Ok(Commands { list, counts })
    }

    /// Appends the replies to each word.
    pub fn put_replies(
        &self,
        answer: &mut String,
        replies: &[TableReply],
    ) -> Result<(), AllocError> {
        let mut rest = replies;
        let mut is_first = true;
        for count in &self.counts {
            if !is_first {
                answer.push(' ')?;
            }
            is_first = false;
            let (own, others) = rest.split_at((*count).min(rest.len()));
            put_replies(answer, own)?;
            rest = others;
        }
        Ok(())
    }
}

/// Appends the replies to one word: how many are true, or what a trim or a reset left.
fn put_replies(answer: &mut String, replies: &[TableReply]) -> Result<(), AllocError> {
    let mut truths = 0u64;
    for reply in replies {
        match *reply {
            TableReply::Inserted(truth) | TableReply::Found(truth) => {
                truths = truths.saturating_add(truth as u64);
            }
            TableReply::Done { count, theta } => return write!(answer, "{count}/{theta}"),
        }
    }
    write!(answer, "{truths}")
}
