//! The files of a program: data over trees.

use crate::indexed::Files;
use crate::tree::File;
use dp_bytes::Bytes;

/// The most bytes that a file may have.
pub const FILE_LIMIT: usize = 1_048_576;

/// The most files of a program.
pub const FILE_COUNT_LIMIT: usize = 64;

/// The most bytes of a file's name.
pub const FILE_NAME_LIMIT: usize = 255;

/// The files of a program. The first is the main file.
#[derive(Debug, Drop)]
pub struct Bundle {
    pub files: Files,
}

/// A file of a program: its name, its bytes and their tree.
#[derive(Debug, Drop)]
pub struct BundleFile {
    pub name: Bytes,
    pub text: Bytes,
    pub tree: File,
}

/// A function of a bundle: the number of its file, and its number in that file.
#[derive(Clone, Copy, Debug, PartialEq, Eq)]
pub struct FunctionRef {
    pub file: u32,
    pub function: u32,
}
