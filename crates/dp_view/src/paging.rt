//! How much is shown of a value.

/// How much is shown of a value.
#[derive(Clone, Copy, Debug, PartialEq, Eq)]
pub struct Paging {
    /// The most entries of an array that are shown: the size of a page.
    pub children: u64,
    /// The most bytes of a text that are shown.
    pub bytes: u64,
    /// How deep arrays are shown: with 0 no entry of any array, with 1 those of the value itself, and so on.
    pub depth: u32,
    /// The page of the value's own entries that is shown, counted from 0. Arrays in it show their page 0.
    pub page: u64,
}
