//! The functions of the C library that have a meaning of their own (C99 7.20.3, 7.20.4): those of these names that have
//! their type.

ghost use Rattle.std.specs.Prelude.{◌≡◌, IfOk, is_some};
ghost use Rattle.c_means.specs.Rules as rules;

use crate::takings::{PlainType, means_function_of};
use c_language::{Entry, Tables};
use std::alloc::{AllocError, Global};

/// Whether a name as it is declared is that of `exit`, `abort`, `malloc`, `calloc` or `free` with its type: `void
/// exit(int)`, `void abort(void)`, `void *malloc(unsigned long)`, `void *calloc(unsigned long, unsigned long)`, `void
/// free(void *)`, every pointer taken as one to void. It fails for want of memory alone.
pub fn is_library_function(
    alloc: Global,
    tables: &Tables,
    entry: &Entry,
) -> Result<bool, AllocError>
    ensures { IfOk result (λ b. b ≡ is_some (rules.library_if (rules.declared_taking tables.now entry.now.means) (rules.library_named entry.now.name))) }
{
    let name = entry.name.get().as_slice();
    if name == b"exit".as_slice() {
        return means_function_of(
            alloc,
            tables,
            &entry.means,
            PlainType::Void,
            &[PlainType::Int],
        );
    }
    if name == b"abort".as_slice() {
        return means_function_of(alloc, tables, &entry.means, PlainType::Void, &[]);
    }
    if name == b"malloc".as_slice() {
        let size = PlainType::UnsignedLong;
        return means_function_of(alloc, tables, &entry.means, PlainType::Pointer, &[size]);
    }
    if name == b"calloc".as_slice() {
        let size = PlainType::UnsignedLong;
        return means_function_of(
            alloc,
            tables,
            &entry.means,
            PlainType::Pointer,
            &[size, size],
        );
    }
    if name == b"free".as_slice() {
        let pointer = PlainType::Pointer;
        return means_function_of(alloc, tables, &entry.means, PlainType::Void, &[pointer]);
    }
    Ok(false)
}
