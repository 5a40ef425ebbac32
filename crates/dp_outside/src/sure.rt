//! The objects in memory that never fail.
ghost use Rattle.std.specs.Prelude.{◌≡◌, ◌+◌, ◌≤◌, [], ◌∷◌, ◌++◌, None, length, IfOk, IsErrOf, IsOk, Some};
ghost use Rattle.std.specs.Io.KnownBytes.{ReadConsumes};
ghost use Rattle.dp_outside.specs.Causes.{HasCause};
ghost use Rattle.dp_outside.specs.Fakes.{after_piece, piece_length, whole_tape};
ghost use Rattle.dp_outside.specs.Files.{Fetches, Lacks, contents_of};
ghost use Rattle.dp_outside.specs.Streams.{TakeGives};

use crate::files::fetch_from;
use crate::names::Names;
use crate::tapes::Pieces;
use crate::{Bytes1, Failed, Memory, Shelf, ShelfError, Sink, Source};
use std::alloc::Global;
use std::marker::Model;

/// A source over bytes in memory that never fails: a `ByteSource` without faults. Its count is always 0.
///
/// Contracts see its tape: the bytes given, those left, and the sizes of the pieces to come.
#[derive(Debug, Drop)]
pub struct SureByteSource {
    pieces: Pieces,
}

impl Model for SureByteSource {
    ghost use Rattle.dp_outside.specs.Fakes.{Tape};

    ghost Value = { Tape };

    ghost view = { λ s. s.pieces };
}

impl SureByteSource {
    /// A source of these bytes in pieces of the sizes in `cuts`, as those of a `ByteSource`.
    pub fn new(bytes: Vec<u8>, cuts: Vec<usize>) -> Result<Self, Memory>
        ensures tape { IfOk result (λ source. source ≡ whole_tape bytes.items cuts.items) }
        ensures sure { IsOk result }
    {
        Ok(SureByteSource {
            pieces: Pieces::new(bytes, cuts),
        })
    }

    /// The bytes that it still gives.
    pub fn left(&self) -> &[u8]
        ensures { result.now ≡ self.now.left }
    {
        self.pieces.left()
    }
}

impl Source for SureByteSource {
    ghost left = { λ s. Some s.left };

    ghost given = { λ s. Some s.given };

    ghost faults = { λ _. 0 };

    ghost tells_both = { λ _ told. told };

    fn take(&mut self, buf: &mut [u8]) -> Result<usize, Failed>
        ensures bound { IfOk result (λ count. count ≤ length buf.new) }
        ensures left { ReadConsumes (Some self.old.left) (Some self.new.left) result buf.new }
        ensures given { TakeGives (Some self.old.given) (Some self.new.given) result buf.new }
        ensures cause { HasCause 0 0 result }

        // It never fails, and gives pieces of the planned sizes.
        ensures sure { IsOk result }
        ensures piece { IfOk result (λ count. count ≡ piece_length self.old (length buf.old)) }
        ensures moved { IfOk result (λ count. self.new ≡ after_piece self.old count) }
    {
        Ok(self.pieces.give(buf))
    }
}

/// A sink that drops its bytes, tells none and never fails. Its count is always 0.
#[derive(Debug, Drop)]
pub struct SureByteSink;

impl SureByteSink {
    /// A sink that drops what it is given. Takes no memory: the `Result` is for the form of the others.
    pub fn new() -> Result<Self, Memory>
        ensures { IsOk result }
    {
        Ok(SureByteSink)
    }
}

impl Sink for SureByteSink {
    ghost taken = { λ _. None };

    ghost faults = { λ _. 0 };

    fn put(&mut self, _bytes: &[u8]) -> Result<(), Failed>
        ensures cause { HasCause 0 0 result }
        ensures sure { IsOk result }
    {
        Ok(())
    }

    fn finish(&mut self) {}
}

/// A shelf of files in memory that never fails: a `MapShelf` without faults. Its count is always 0.
///
/// Contracts see the names and contents of its files, and the names that it was asked for.
#[derive(Drop)]
pub struct SureMapShelf {
    files: Vec<(String, Vec<u8>)>,
    fetched: Names,
}

impl Model for SureMapShelf {
    ghost use Rattle.dp_outside.specs.Fakes.{SureShelfState};
    ghost use Rattle.dp_outside.specs.Files.{contents_of};

    ghost Value = { SureShelfState };

    ghost view = { λ s. record { files = contents_of s.files.items; fetched = s.fetched.names } };
}

impl SureMapShelf {
    /// A shelf of these files. Of two of one name the first counts.
    pub fn new(files: Vec<(String, Vec<u8>)>) -> Result<Self, Memory>
        ensures files { IfOk result (λ shelf. shelf.files ≡ contents_of files.items) }
        ensures fetched { IfOk result (λ shelf. shelf.fetched ≡ []) }
        ensures sure { IsOk result }
    {
        Ok(SureMapShelf {
            files,
            fetched: Names::new(),
        })
    }
}

impl Shelf for SureMapShelf {
    ghost files = { λ s. Some s.files };

    ghost fetched = { λ s. Some s.fetched };

    ghost faults = { λ _. 0 };

    fn fetch(&mut self, alloc: Global, name: &str, limit: usize) -> Result<Bytes1, ShelfError>
        ensures length { IfOk result (λ bytes. length bytes ≤ limit + 1) }
        ensures bytes { IfOk result (Fetches (Some self.old.files) name.now limit) }
        ensures missing { IsErrOf result ShelfError.Missing → Lacks (Some self.old.files) name.now }
        ensures sure { IsErrOf result ShelfError.Failed → ⊥ }
        ensures files { self.new.files ≡ self.old.files }
        ensures fetched { self.new.fetched ≡ self.old.fetched ++ name.now ∷ [] }
    {
        self.fetched.note(name.as_bytes());
        fetch_from(alloc, &self.files, name, limit)
    }
}
