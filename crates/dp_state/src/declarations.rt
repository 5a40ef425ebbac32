//! The functions of a program that are declared.

ghost use Rattle.std.specs.Prelude.{◌≡◌, ◌++◌, [], IfOk, OnOk, OnErr};
ghost use Rattle.dp_tree.specs.Files.{first_functions, function_named};
ghost use Rattle.dp_state.specs.Functions.{declared_function};
ghost use Rattle.dp_state.specs.inner.Declarations.{functions_in, reference_in};

use dp_bytes::Memory;
use dp_tree::{AnyCase, Bundle, FunctionRef};
use std::alloc::Global;
use std::marker::Model;

/// The functions that are declared, in the order of their declarations. Contracts see the list of their references.
///
/// They are kept by the files in which they stand, so that a copy of them walks no function.
#[derive(Debug, Drop)]
pub struct Declared {
    parts: Vec<Part>,
}

/// So many functions of a file, in their order.
#[derive(Clone, Copy, Debug)]
pub(crate) struct Part {
    file: u32,
    count: u32,
}

impl Model for Declared {
    ghost use Rattle.std.specs.Prelude.{List};
    ghost use Rattle.std.specs.Coded.{coded_list};
    ghost use Rattle.dp_tree.specs.declared.bundle.FunctionRef.{FunctionRef as Reference};
    ghost use Rattle.dp_tree.specs.contracts.bundle.FunctionRef as reference;

    ghost Value = { List Reference };

    ghost coded = { coded_list reference.the_row.coded };

    ghost use Rattle.dp_state.specs.inner.Declarations.{functions_in};

    ghost view = { λ d. functions_in d.parts.items };
}

impl Declared {
    /// No functions. Takes no memory.
    pub(crate) fn none(alloc: Global) -> Declared
        ensures { result ≡ [] }
    {
        Declared {
            parts: Vec::new(alloc),
        }
    }

    /// Puts so many functions of a file behind those that are declared.
    pub(crate) fn add(&mut self, file: u32, count: u32) -> Result<(), Memory>
        ensures ok { OnOk result (self.new ≡ self.old ++ first_functions file count) }
        ensures err { OnErr result (self.new ≡ self.old) }
    {
        if count == 0 {
            return Ok(());
        }
        self.parts.push(Part { file, count })?;
        Ok(())
    }

    /// The same functions.
    pub(crate) fn try_clone(&self, alloc: Global) -> Result<Declared, Memory>
        ensures { IfOk result (λ copy. copy ≡ self.now) }
    {
        Ok(Declared {
            parts: Vec::from_slice(alloc, self.parts.as_slice())?,
        })
    }

    /// The first of them that has this name, in any case of letters.
    pub(crate) fn named(&self, alloc: Global, bundle: &Bundle, name: &[u8]) -> Option<FunctionRef>
        ensures { result ≡ declared_function bundle.now name.now self.now }
    {
        for part in self.parts.as_slice() {
            let found = part_named(alloc, part, bundle, name);
            if found.is_some() {
                return found;
            }
        }
        None
    }
}

/// The first function that has this name, of one part.
fn part_named(alloc: Global, part: &Part, bundle: &Bundle, name: &[u8]) -> Option<FunctionRef>
    ensures { result ≡ reference_in part.now (function_named bundle.now part.now.file name.now) }
{
    let number = match bundle.one_of_few(part.file, name) {
        Some(number) => number?,
        None => bundle.function_named(part.file, &AnyCase::new(alloc, name))?,
    };
    if number >= part.count as usize {
        return None;
    }
    Some(FunctionRef {
        file: part.file,
        function: number as u32,
    })
}
