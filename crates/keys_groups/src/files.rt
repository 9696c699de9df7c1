//! A file for each group.
ghost use Rattle.std.specs.Prelude.{◌≡◌, ◌++◌, ℕ, List, true, None, IfOk, OnOk};
ghost use Rattle.core_laws.specs.Refusal.{Refuses};
ghost use Rattle.keys_groups.specs.Groups.{AreLeft};
ghost use Rattle.keys_groups.specs.Files.{is_plain, spelled, file_name, file_bytes, contents_of, files_of};
ghost use Rattle.keys_groups.specs.declared.groups.Grouping.{Grouping};

use crate::groups::{Group, Groups};
use keys_sketches::{hex_line, image_of, put_byte};
use sketch_base::Error;
use std::alloc::{AllocError, Global};

/// The file of a group.
#[derive(Drop)]
pub struct GroupFile {
    /// Its name without a folder, in ASCII.
    pub name: Vec<u8>,
    /// What it has: the image of the group's sketch, as bytes or as a line of hexadecimal digits.
    pub bytes: Vec<u8>,
}

/// Whether a byte is an ASCII letter, a digit, `-`, `.` or `_`, which stay as they are in the name of a file.
fn is_plain(byte: u8) -> bool
    ensures { result ≡ is_plain byte }
{
    match byte {
        b'a'..=b'z' => true,
        b'A'..=b'Z' => true,
        b'0'..=b'9' => true,
        _ => byte == b'-' || byte == b'.' || byte == b'_',
    }
}

/// Appends a byte of a group's name to the name of its file.
fn spell(text: &mut Vec<u8>, byte: u8) -> Result<(), AllocError>
    ensures { OnOk result (text.new.items ≡ text.old.items ++ spelled byte) }
{
    if is_plain(byte) {
        text.push(byte)?;
    } else {
        text.push(b'%')?;
        put_byte(text, byte)?;
    }
    Ok(())
}

/// The name of the file of a group: each byte of the group's name, as it is if it is an ASCII letter, a digit, `-`,
/// `.` or `_`, otherwise as `%` and two lowercase hexadecimal digits; then the ending `.theta`. The file of the group
/// with the empty name is `%.theta`. Groups of different names have files of different names (`laws::files_apart`).
/// The only error is `AllocError`.
pub fn file_name(alloc: Global, name: &[u8]) -> Result<Vec<u8>, AllocError>
    ensures { IfOk result (λ v. v.items ≡ file_name name.now) }
{
    let mut text = Vec::new(alloc);
    if name.is_empty() {
        text.push(b'%')?;
    }
    let mut left = name;
    while let Some((byte, others)) = left.split_first() {
        spell(&mut text, *byte)?;
        left = others;
    }
    text.extend_from_slice(b".theta")?;
    Ok(text)
}

/// The file of a group, with its image in hexadecimal if `hex`. Refused only with `OutOfMemory`.
fn file_of(alloc: Global, hex: bool, group: Group) -> Result<GroupFile, Error>
    ensures name { IfOk result (λ file. file.name.items ≡ file_name group.name.items) }
    ensures bytes { IfOk result (λ file. file.bytes.items ≡ file_bytes hex group.sketch) }
    ensures refused { Refuses result None true }
{
    let name = file_name(alloc, group.name.as_slice())?;
    let image = image_of(&group.sketch)?;
    if !hex {
        return Ok(GroupFile { name, bytes: image });
    }
    let bytes = hex_line(alloc, image.as_slice())?;
    Ok(GroupFile { name, bytes })
}

/// The files of all groups that are left, in the order of the groups' names, with images in hexadecimal if `hex`.
/// Refused only with `OutOfMemory`.
pub fn files_of(alloc: Global, hex: bool, groups: &mut Groups) -> Result<Vec<GroupFile>, Error>
    ensures files { (grouping : Grouping) (lines names : List (List ℕ))
        → AreLeft grouping lines names groups.old
        → IfOk result (λ v. contents_of v.items ≡ files_of hex grouping lines names) }
    ensures refused { Refuses result None true }
{
    let mut files = Vec::new(alloc);
    for _ in 0..u64::MAX {
        let Some(group) = groups.next_group()? else {
            return Ok(files);
        };
        let file = file_of(alloc, hex, group)?;
        files.push(file)?;
    }
    Err(Error::from(AllocError))
}
