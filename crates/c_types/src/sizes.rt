//! Sizes, alignments and offsets (C99 6.5.3.4, 6.7.2.1), without memory.

ghost use Rattle.std.specs.Prelude.{◌≡◌};
ghost use Rattle.c_language.specs.Layouts as layouts;
ghost use Rattle.c_types.specs.Sizes.{is_none, lacks_size};

use c_language::{CType, Tables};

/// How many bytes an object of the type takes (C99 6.5.3.4): none exactly where the type is incomplete, opaque or a
/// function type.
#[tactic(auto, using(crate::proofs::Unsized::no_size))]
pub fn size_of(tables: &Tables, ctype: &CType) -> Option<u64>
    ensures value { result ≡ layouts.size_of tables.now ctype.now }
    ensures none { is_none result ≡ lacks_size tables.now ctype.now }
{
    tables.size_of(ctype)
}

/// To how many bytes an object of the type is aligned: none exactly where `size_of` has none.
#[tactic(auto, using(crate::proofs::Unsized::no_align))]
pub fn align_of(tables: &Tables, ctype: &CType) -> Option<u64>
    ensures value { result ≡ layouts.align_of tables.now ctype.now }
    ensures none { is_none result ≡ lacks_size tables.now ctype.now }
{
    tables.align_of(ctype)
}

/// The offset in bytes of a member by its number, from 0: none exactly where the type is no complete structure or
/// union, or has no such member.
pub fn offset_of(tables: &Tables, ctype: &CType, member: u32) -> Option<u64>
    ensures { result ≡ layouts.offset_of tables.now ctype.now member }
{
    tables.offset_of(ctype, member)
}
