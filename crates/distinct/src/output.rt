//! Writing the file that `--output` names.
ghost use Rattle.std.specs.Prelude.{IfErr};
ghost use Rattle.distinct_messages.specs.Failures.{IsOfWriting};

use distinct_messages::{Failure, write_failure};
use keys_groups::GroupFile;
use std::alloc::Global;
use std::fs::{File, Files};
use std::io::{ErrorKind, Write};
use std::{fs, io};

/// Writes a file of this name, or writes to the device or pipe of this name.
pub fn put_file(rt: &HostRuntime, name: &str, bytes: &[u8]) -> Result<(), Failure>
    ensures { IfErr result (IsOfWriting name.now) }
{
    match write_file(rt, name, bytes) {
        Ok(()) => Ok(()),
        Err(error) => Err(write_failure(rt.alloc(), name, error)),
    }
}

/// The longest name of a file of a group, in bytes: most systems allow 255, and the name of the new file beside it
/// has up to 9 more.
const LONGEST_FILE: usize = 246;

/// Writes the files of groups into a folder, which is made if it is missing. If a name is too long, nothing is
/// written. Each file is written all or nothing; if one fails, those before it stay.
pub fn put_files(rt: &HostRuntime, folder: &str, files: &[GroupFile]) -> Result<(), Failure> {
    let alloc = rt.alloc();
    for file in files {
        if LONGEST_FILE < file.name.len() {
            let path = path_of(alloc, folder, file)?;
            return Err(Failure::LongName(path, file.name.len() as u64));
        }
    }
    if let Err(error) = fs::create_dir_all(rt, folder) {
        return Err(write_failure(alloc, folder, error));
    }
    for file in files {
        let path = path_of(alloc, folder, file)?;
        put_file(rt, path.as_str(), file.bytes.as_slice())?;
    }
    Ok(())
}

/// The path of the file of a group.
fn path_of(alloc: Global, folder: &str, file: &GroupFile) -> Result<String, Failure> {
    let Ok(name) = str::from_utf8(file.name.as_slice()) else {
        return Err(Failure::Memory);
    };
    Ok(format!(in alloc; "{folder}/{name}")?)
}

/// Whether the name is that of something other than a file or a folder, such as a device or a pipe.
fn is_special(rt: &HostRuntime, name: &str) -> bool {
    match fs::metadata(rt, name) {
        Ok(metadata) => !metadata.is_file() && !metadata.is_dir(),
        Err(_) => false,
    }
}

/// Whether the name is that of a folder.
fn is_folder(rt: &HostRuntime, name: &str) -> bool {
    match fs::metadata(rt, name) {
        Ok(metadata) => metadata.is_dir(),
        Err(_) => false,
    }
}

/// Whether the name is that of a symbolic link.
fn is_link(rt: &HostRuntime, name: &str) -> bool {
    match fs::symlink_metadata(rt, name) {
        Ok(metadata) => metadata.is_symlink(),
        Err(_) => false,
    }
}

/// Writes a file, all or nothing. Through a symbolic link it writes the file that the link leads to.
fn write_file(rt: &HostRuntime, name: &str, bytes: &[u8]) -> io::Result<()> {
    if is_special(rt, name) {
        return fs::write(rt, name, bytes);
    }
    if is_folder(rt, name) {
        return Err(io::Error::from(ErrorKind::IsADirectory));
    }
    if !is_link(rt, name) {
        return replace_file(rt, name, bytes);
    }
    match rt.canonicalize(rt.alloc(), name) {
        Ok(target) => replace_file(rt, target.as_str(), bytes),
        Err(_) => fs::write(rt, name, bytes),
    }
}

/// Writes a file, all or nothing: it writes a new file beside it and then renames that. An existing file's
/// permissions are kept.
fn replace_file(rt: &HostRuntime, name: &str, bytes: &[u8]) -> io::Result<()> {
    let (beside, file) = new_beside(rt, name)?;
    let put = put_beside(rt, file, beside.as_str(), name, bytes);
    if put.is_err() {
        let _ = fs::remove_file(rt, beside.as_str());
    }
    put
}

/// How many names for the new file are tried until one is free.
const NAMES: u32 = 1000;

/// A new file beside another, and its name.
fn new_beside(rt: &HostRuntime, name: &str) -> io::Result<(String, File)> {
    for number in 0..NAMES {
        let beside = format!(in rt.alloc(); "{name}.{number}.part")?;
        match File::create_new(rt, beside.as_str()) {
            Ok(file) => return Ok((beside, file)),
            Err(error) => {
                if error.kind() != ErrorKind::AlreadyExists {
                    return Err(error);
                }
            }
        }
    }
    Err(io::Error::from(ErrorKind::AlreadyExists))
}

fn put_beside(
    rt: &HostRuntime,
    mut file: File,
    beside: &str,
    name: &str,
    bytes: &[u8],
) -> io::Result<()> {
    if let Ok(metadata) = fs::metadata(rt, name) {
        file.set_permissions(metadata.permissions())?;
    }
    file.write_all(bytes)?;
    fs::rename(rt, beside, name)
}
