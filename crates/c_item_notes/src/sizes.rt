//! How many bytes objects have.

ghost use Rattle.std.specs.Prelude.{◌≡◌, Some};
ghost use Rattle.c_means.specs.Values as values;

use c_language::{CType, Class, Tables};

/// The bytes of an object, by its type's class and size.
fn bytes_as(class: Class, size: Option<u64>) -> u64
    ensures { result ≡ values.bytes_as class size }
{
    match class {
        Class::Integer(kind) => kind.bytes(),
        Class::Pointer => 8,
        Class::Void => 0,
        Class::Array => size.unwrap_or(0),
        Class::Function => size.unwrap_or(0),
        Class::Floating => size.unwrap_or(0),
        Class::Aggregate(_) => size.unwrap_or(0),
        Class::Opaque => size.unwrap_or(0),
    }
}

/// The bytes of an object of a type (C99 6.5.3.4); 0 where they aren't known.
pub(crate) fn bytes_of(tables: &Tables, ctype: &CType) -> u64
    ensures { result ≡ values.bytes_of tables.now (Some ctype.now) }
{
    bytes_as(ctype.class(), tables.size_of(ctype))
}
