//! Lists of names of files.
ghost use Rattle.std.specs.Prelude.{◌≡◌, ◌++◌, ◌∷◌, [], length, IfOk, IfErr, OnOk};
ghost use Rattle.distinct_inputs.specs.Lists.{names_of, texts_of, names_in, IsName, IsNotPut, IsListError};

use keys_lines::cut_at;
use std::alloc::{AllocError, AllocFailed, Global};

/// Why a list is not read.
#[derive(Clone, Copy, Debug, PartialEq, Eq)]
pub enum ListError {
    /// The name of this number, from 1, is empty or not UTF-8 text.
    Name(u64),
    /// Memory was refused.
    Memory,
}

impl From<AllocError> for ListError {
    ghost use Rattle.distinct_inputs.specs.declared.lists.ListError.TheVariants.{Memory};

    ghost from_gives = { λ _ e. e ≡ Memory };

    fn from(_e: AllocError) -> ListError {
        ListError::Memory
    }
}

impl<T: Drop> From<AllocFailed<T>> for ListError {
    ghost use Rattle.distinct_inputs.specs.declared.lists.ListError.TheVariants.{Memory};

    ghost from_gives = { λ _ e. e ≡ Memory };

    fn from(_e: AllocFailed<T>) -> ListError {
        ListError::Memory
    }
}

/// Appends a name to a list. It fails if the name is empty or not UTF-8 text, or if memory is refused.
fn put_name(alloc: Global, names: &mut Vec<String>, name: &[u8]) -> Result<(), ListError>
    ensures put { OnOk result (names_of names.new.items ≡ names_of names.old.items ++ name.now ∷ []) }
    ensures named { OnOk result (IsName name.now) }
    ensures failed { IfErr result (IsNotPut (length names.old.items) name.now) }
{
    let number = (names.len() as u64).saturating_add(1);
    if name.is_empty() {
        return Err(ListError::Name(number));
    }
    match str::from_utf8(name) {
        Ok(text) => {
            names.push(String::from_str(alloc, text)?)?;
            Ok(())
        }
        Err(_) => Err(ListError::Name(number)),
    }
}

/// The names in a list. A NUL byte ends each, which the last may lack. It fails with the number, from 1, of the first
/// name that is empty or not UTF-8 text, or if memory is refused.
pub fn names_in(alloc: Global, list: &[u8]) -> Result<Vec<String>, ListError>
    ensures names { IfOk result (λ v. names_of v.items ≡ names_in list.now) }
    ensures failed { IfErr result (IsListError (names_in list.now)) }
{
    let mut names = Vec::new(alloc);
    let mut rest = list;
    while let Some((name, others)) = cut_at(rest, 0) {
        put_name(alloc, &mut names, name)?;
        rest = others;
    }
    if rest.is_empty() {
        return Ok(names);
    }
    put_name(alloc, &mut names, rest)?;
    Ok(names)
}

/// Names as texts. It fails with the number, from 1, of the first name that is empty or not UTF-8 text, or if memory
/// is refused.
pub fn texts_of(alloc: Global, names: &[Vec<u8>]) -> Result<Vec<String>, ListError>
    ensures names { IfOk result (λ v. names_of v.items ≡ texts_of names.now) }
    ensures failed { IfErr result (IsListError (texts_of names.now)) }
{
    let mut texts = Vec::new(alloc);
    let mut left = names;
    while let Some((name, others)) = left.split_first() {
        put_name(alloc, &mut texts, name.as_slice())?;
        left = others;
    }
    Ok(texts)
}
