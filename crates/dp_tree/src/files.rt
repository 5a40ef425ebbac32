//! The files of a bundle by their names, and their functions by their numbers.

ghost use Rattle.std.specs.Prelude.{◌≡◌, ◌<◌, [], length, option_map, position, slice_get, IfOk, IfSome, OnErr};
ghost use Rattle.std.specs.Option.{option_map_or};
ghost use Rattle.std.specs.Str.{str_eq_ignore_ascii_case};
ghost use Rattle.dp_tree.specs.Files.{file_named, function_at, function_count as count_of, function_named};

use crate::bundle::{Bundle, FunctionRef};
use crate::names::AnyCase;
use crate::tree::Function;
use dp_bytes::Memory;

/// How many functions of a file are walked, the most, before the hash of a name is taken.
const FEW: usize = 8;

impl Bundle {
    /// The number of the file of this name, by exact equality. Takes no memory: `Memory` comes only where there are
    /// more files than can be numbered.
    pub fn file_named(&self, name: &[u8]) -> Result<Option<u32>, Memory>
        ensures number { IfOk result (λ number. number ≡ file_named self.now name.now) }
        ensures memory { OnErr result (u32.MAX < length self.now.files) }
    {
        match self.position(name) {
            Some(number) => Ok(Some(numbered(number)?)),
            None => Ok(None),
        }
    }

    /// The position of the file of this name.
    fn position(&self, name: &[u8]) -> Option<usize>
        ensures { result ≡ file_named self.now name.now }
    {
        let mut files = self.files.as_slice().iter();
        files.position(|file| file.name.as_slice() == name)
    }

    /// The function that a reference names. Takes no memory.
    pub fn function(&self, reference: FunctionRef) -> Option<&Function>
        ensures { option_map (λ f. f.now) result ≡ function_at self.now reference }
    {
        match self.files.as_slice().get(reference.file as usize) {
            Some(file) => file
                .tree
                .functions
                .as_slice()
                .get(reference.function as usize),
            None => None,
        }
    }

    /// How many functions the file of this number has. Takes no memory: `Memory` comes only where there are more than
    /// can be numbered.
    pub fn function_count(&self, file: u32) -> Result<u32, Memory>
        ensures count { IfOk result (λ count. count ≡ count_of self.now file) }
        ensures memory { OnErr result (u32.MAX < count_of self.now file) }
    {
        match self.files.as_slice().get(file as usize) {
            Some(file) => numbered(file.tree.functions.len()),
            None => Ok(0),
        }
    }

    /// The number of the first function of this name in the file of this number, in any case of letters: found by the
    /// hash of the name in lower case. Takes no memory.
    pub fn function_named(&self, file: u32, name: &AnyCase<'_>) -> Option<usize>
        ensures { result ≡ function_named self.now file name.now }
    {
        match &name.lower {
            Some(lower) => self.files.first(file, lower),
            None => self.walk(file, name.written),
        }
    }

    /// The same where the file has few functions, which are walked. `None` says nothing. Takes no memory.
    pub fn one_of_few(&self, file: u32, name: &[u8]) -> Option<Option<usize>>
        ensures { IfSome result (λ number. number ≡ function_named self.now file name.now) }
    {
        if self.functions(file).len() > FEW {
            return None;
        }
        Some(self.walk(file, name))
    }

    /// The same without the name in lower case: the functions of the file are walked.
    fn walk(&self, file: u32, name: &[u8]) -> Option<usize>
        ensures { result ≡ function_named self.now file name.now }
    {
        position_of(self.functions(file), name)
    }

    /// The functions of the file of this number, in order. Takes no memory.
    pub fn functions(&self, file: u32) -> &[Function]
        ensures { result.now ≡ option_map_or (λ f. f.tree.functions) (slice_get self.now.files file) [] }
    {
        match self.files.as_slice().get(file as usize) {
            Some(file) => file.tree.functions.as_slice(),
            None => &[],
        }
    }
}

/// A number of a file, or how many functions there are. More than can be numbered do not fit into memory.
fn numbered(number: usize) -> Result<u32, Memory>
    ensures number { IfOk result (λ n. n ≡ number) }
    ensures memory { OnErr result (u32.MAX < number) }
{
    match u32::try_from(number) {
        Ok(n) => Ok(n),
        Err(_) => Err(Memory),
    }
}

/// The number of the first of these functions that has this name, in any case of letters.
fn position_of(functions: &[Function], name: &[u8]) -> Option<usize>
    ensures { result ≡ position (λ f. str_eq_ignore_ascii_case name.now f.name) functions.now }
{
    let mut functions = functions.iter();
    functions.position(|function| name.eq_ignore_ascii_case(function.name.as_slice()))
}
