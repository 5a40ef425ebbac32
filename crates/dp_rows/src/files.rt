//! The files of rows in the folder where a program runs.

use crate::Memory;
use std::alloc::Global;
use std::rt::Files;
use std::{fs, io};

/// A file of rows: its name, and what it holds.
#[derive(Drop)]
pub struct RowFile {
    pub name: String,
    bytes: Vec<u8>,
}

impl RowFile {
    /// The lines of the file.
    pub fn lines(&self, alloc: Global) -> Result<Vec<&[u8]>, Memory> {
        self.bytes.split(|byte| *byte == b'\n').collect(alloc)
    }
}

/// The names of the files of rows in the folder where the program runs, in order.
fn names<R: Files + AllocGlobal + Clone + Drop>(rt: &R) -> io::Result<Vec<String>> {
    let mut names = Vec::new(rt.alloc());
    for entry in fs::read_dir(rt, ".")? {
        let entry = entry?;
        let name = entry.file_name();
        if name.ends_with(".rows") {
            names.push(String::from_str(rt.alloc(), name)?)?;
        }
    }
    names.sort()?;
    Ok(names)
}

/// The files of rows in the folder where the program runs, in the order of their names.
pub fn read_files<R: Files + AllocGlobal + Clone + Drop>(rt: &R) -> io::Result<Vec<RowFile>> {
    let mut files = Vec::new(rt.alloc());
    for name in names(rt)? {
        let bytes = fs::read(rt, name.as_str())?;
        files.push(RowFile { name, bytes })?;
    }
    Ok(files)
}
