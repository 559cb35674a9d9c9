//! One place of a table.

/// A number and the value under it, or a place whose value was taken out.
#[derive(Drop)]
pub struct Row<T> {
    /// The number.
    pub number: u64,
    /// The value. There is none in an empty place.
    pub value: Option<T>,
}
