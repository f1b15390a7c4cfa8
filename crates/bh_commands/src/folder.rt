//! A folder into which nobody else may look: what is made there has its rights before it comes to its path.

use std::alloc::Global;
use std::fs::{DirBuilder, Files};
use std::io;
use std::io::ErrorKind;
use std::os::unix::fs::DirBuilderExt;

/// The rights of the folder: its owner alone may look into it.
const FOLDER_MODE: u32 = 0o700;

/// So many names are tried, of which services that were killed may have left some.
const MOST_FOLDERS: u32 = 100;

/// Makes a new folder beside the path, and gives its name. The error is `AlreadyExists` where a hundred were left there.
pub(crate) fn make_folder<R: Files>(rt: &R, alloc: Global, path: &str) -> io::Result<String> {
    let mut last = io::Error::from(ErrorKind::AlreadyExists);
    for number in 0..MOST_FOLDERS {
        let folder = format!(in alloc; "{path}.{number}")?;
        match DirBuilder::new()
            .mode(FOLDER_MODE)
            .create(rt, folder.as_str())
        {
            Ok(()) => return Ok(folder),
            Err(error) if error.kind() == ErrorKind::AlreadyExists => last = error,
            Err(error) => return Err(error),
        }
    }
    Err(last)
}
