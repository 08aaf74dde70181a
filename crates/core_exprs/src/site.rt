//! Calls as they stand in the source (C99 6.5.2.2).

use c_language::{CType, Entry};
use plain_data::{Bytes, Items, Shared};

/// A call as it stands in the source, apart from the names in force behind it: the offset of the callee's name, the
/// declaration that the name has, the type of the call, the types of its arguments as they are converted, and the bytes
/// of those that are string literals.
#[derive(Drop)]
pub struct Site {
    pub at: u32,
    pub callee: Shared<Entry>,
    pub ctype: Option<CType>,
    pub types: Items<Option<CType>>,
    pub texts: Items<Option<Bytes>>,
}
