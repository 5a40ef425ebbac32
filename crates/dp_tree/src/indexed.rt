//! The files of a program, with an index of the functions of each by their names.

ghost use Rattle.std.specs.Prelude.{◌≡◌, ◌==◌, is_some, length, option_map, slice_get, None, IfOk, OnOk};
ghost use Rattle.std.specs.Map.{lookup};
ghost use Rattle.std.specs.Option.{option_map_or};
ghost use Rattle.std.specs.Str.{bytes_eq};
ghost use Rattle.dp_tree.specs.inner.Indexes.{AreIndexed, IsIndex, first_of, with_first};

use crate::bundle::BundleFile;
use crate::names::lowered;
use crate::tree::Function;
use dp_bytes::{Bytes, Items, Memory};
use indexmap::IndexMap;
use std::alloc::Global;
use std::marker::Model;

/// The files of a program, in order. Contracts see the list.
///
/// Beside each file stands an index of its functions by their names, which is made once.
#[derive(Debug, Drop)]
pub struct Files {
    files: Items<BundleFile>,
    indexes: Vec<Index>,
}

/// For each name of a function of a file, in lower case, the number of the first function of this name.
#[derive(Debug, Drop)]
struct Index {
    firsts: IndexMap<Bytes, usize>,
}

impl Model for Files {
    ghost use Rattle.std.specs.Prelude.{List};
    ghost use Rattle.std.specs.Coded.{coded_list};
    ghost use Rattle.dp_tree.specs.declared.bundle.BundleFile.{BundleFile as OneFile};
    ghost use Rattle.dp_tree.specs.contracts.bundle.BundleFile as one_file;

    ghost Value = { List OneFile };

    ghost coded = { coded_list one_file.the_row.coded };

    ghost use Rattle.dp_tree.specs.inner.Indexes.{AreIndexed};

    ghost view = { λ f. f.files };

    ghost invariant = { λ f. AreIndexed f.files f.indexes.items };
}

impl Files {
    /// These files. Takes time linear in the bytes of the names of their functions.
    pub fn of(alloc: Global, files: Items<BundleFile>) -> Result<Files, Memory>
        ensures { IfOk result (λ made. made ≡ files) }
    {
        let indexes = indexes_of(alloc, files.as_slice())?;
        Ok(Files { files, indexes })
    }

    /// The files as a slice. Takes no memory.
    pub fn as_slice(&self) -> &[BundleFile]
        ensures { result.now ≡ self.now }
    {
        self.files.as_slice()
    }

    /// The number of files.
    pub fn len(&self) -> usize
        ensures { result ≡ length self.now }
    {
        self.files.len()
    }

    /// Whether there is no file.
    pub fn is_empty(&self) -> bool
        ensures { result ≡ (length self.now == 0) }
    {
        self.files.is_empty()
    }

    /// The number of the first function of a file with this name, which is in lower case.
    pub(crate) fn first(&self, file: u32, lower: &Bytes) -> Option<usize>
        ensures { result ≡ option_map_or (λ f. first_of f.tree.functions lower.now) (slice_get self.now file) None }
    {
        match index_at(self.indexes.as_slice(), file) {
            Some(index) => index.first(lower),
            None => None,
        }
    }
}

impl Index {
    /// What the index has for a name in lower case.
    fn first(&self, lower: &Bytes) -> Option<usize>
        ensures { result ≡ lookup (bytes_eq lower.now) self.now.firsts.entries }
    {
        self.firsts.get(lower).copied()
    }
}

/// The index of the file of this number.
fn index_at(indexes: &[Index], file: u32) -> Option<&Index>
    ensures { option_map (λ index. index.now) result ≡ slice_get indexes.now file }
{
    indexes.get(file as usize)
}

/// The indexes of these files, in their order.
fn indexes_of(alloc: Global, files: &[BundleFile]) -> Result<Vec<Index>, Memory>
    ensures { IfOk result (λ indexes. AreIndexed files.now indexes.items) }
{
    let mut indexes = Vec::with_capacity(alloc, files.len())?;
    for file in files {
        indexes.push(index_of(alloc, file.tree.functions.as_slice())?)?;
    }
    Ok(indexes)
}

/// The index of these functions.
fn index_of(alloc: Global, functions: &[Function]) -> Result<Index, Memory>
    ensures { IfOk result (λ index. IsIndex functions.now index.firsts.entries) }
{
    let mut firsts = IndexMap::new(alloc);
    for number in 0..functions.len() {
        let lower = lowered(alloc, functions[number].name.as_slice())?;
        keep_first(&mut firsts, lower, number)?;
    }
    Ok(Index { firsts })
}

/// Whether a name in lower case has a number.
fn has(firsts: &IndexMap<Bytes, usize>, lower: &Bytes) -> bool
    ensures { result ≡ is_some (lookup (bytes_eq lower.now) firsts.now.entries) }
{
    firsts.contains_key(lower)
}

/// Gives a name in lower case this number, unless it has one.
fn keep_first(
    firsts: &mut IndexMap<Bytes, usize>,
    lower: Bytes,
    number: usize,
) -> Result<(), Memory>
    ensures { OnOk result (firsts.new.entries ≡ with_first firsts.old.entries lower number) }
{
    if has(firsts, &lower) {
        return Ok(());
    }
    firsts.insert(lower, number)?;
    Ok(())
}
