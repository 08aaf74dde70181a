//! Functions of the C library that have a meaning of their own (C99 7.20.3, 7.20.4).
ghost use Rattle.std.specs.Prelude.{◌≡◌, IfOk};
ghost use Rattle.core_calls.specs.Calling as spec;
ghost use Rattle.c_means.specs.Rules as rules;

use c_checks::is_library_function;
use c_language::{Entry, Tables};
use core_tree::Callee;
use std::alloc::{AllocError, Global};

/// What a library function of this name is in the core.
fn callee_named(name: &[u8]) -> Option<Callee>
    ensures { result ≡ spec.library_named name.now }
{
    if name == b"exit".as_slice() {
        return Some(Callee::Exit);
    }
    if name == b"abort".as_slice() {
        return Some(Callee::Abort);
    }
    if name == b"malloc".as_slice() {
        return Some(Callee::Malloc);
    }
    if name == b"calloc".as_slice() {
        return Some(Callee::Calloc);
    }
    if name == b"free".as_slice() {
        return Some(Callee::Free);
    }
    None
}

/// What a call of a name is that is declared as `exit`, `abort`, `malloc`, `calloc` or `free` with its type. It fails
/// for want of memory alone.
pub fn library_callee(
    alloc: Global,
    tables: &Tables,
    entry: &Entry,
) -> Result<Option<Callee>, AllocError>
    ensures { IfOk result (λ c. c ≡ spec.library_in (rules.library_if (rules.declared_taking tables.now entry.now.means) (rules.library_named entry.now.name))) }
{
    if is_library_function(alloc, tables, entry)? {
        Ok(callee_named(entry.name.get().as_slice()))
    } else {
        Ok(None)
    }
}
