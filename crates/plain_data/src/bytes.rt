use crate::Items;

/// A list of bytes.
pub type Bytes = Items<u8>;

/// A list of whole numbers, as the values that watched variables have.
pub type Numbers = Items<i128>;
