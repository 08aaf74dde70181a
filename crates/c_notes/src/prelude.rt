//! The functions of the C library that have a body here, by name and type (C99 7.20, 7.21).

ghost use Rattle.std.specs.Prelude.{◌≡◌, IfOk};
ghost use Rattle.c_means.specs.Rules as rules;
ghost use Rattle.c_notes.specs.CallsTold as spec;

use c_checks::{PlainType, means_function_of};
use c_language::{Entry, Tables};
use std::alloc::{AllocError, Global};

fn count_if(
    alloc: Global,
    tables: &Tables,
    entry: &Entry,
    to: PlainType,
    wanted: &[PlainType],
) -> Result<Option<usize>, AllocError>
    ensures { IfOk result (λ n. n ≡ spec.count_if (rules.declared_taking tables.now entry.now.means) to wanted.now) }
{
    if means_function_of(alloc, tables, &entry.means, to, wanted)? {
        Ok(Some(wanted.len()))
    } else {
        Ok(None)
    }
}

/// How many parameters the function of this name has that has a body here, where it is declared with its type: one of
/// `strlen`, `strcmp`, `strncmp`, `strchr`, `strcpy`, `strcat`, `memset`, `memcpy` and `atoi`, every pointer taken as
/// one to void. It fails for want of memory alone.
pub fn prelude_parameters(
    alloc: Global,
    tables: &Tables,
    entry: &Entry,
) -> Result<Option<usize>, AllocError>
    ensures { IfOk result (λ n. n ≡ spec.prelude_count (rules.declared_taking tables.now entry.now.means) entry.now.name) }
{
    let (int, size, text) = (PlainType::Int, PlainType::UnsignedLong, PlainType::Pointer);
    let name = entry.name.get().as_slice();
    if name == b"strlen".as_slice() {
        return count_if(alloc, tables, entry, size, &[text]);
    }
    if name == b"strcmp".as_slice() {
        return count_if(alloc, tables, entry, int, &[text, text]);
    }
    if name == b"strncmp".as_slice() {
        return count_if(alloc, tables, entry, int, &[text, text, size]);
    }
    if name == b"strchr".as_slice() {
        return count_if(alloc, tables, entry, text, &[text, int]);
    }
    if name == b"strcpy".as_slice() {
        return count_if(alloc, tables, entry, text, &[text, text]);
    }
    if name == b"strcat".as_slice() {
        return count_if(alloc, tables, entry, text, &[text, text]);
    }
    if name == b"memset".as_slice() {
        return count_if(alloc, tables, entry, text, &[text, int, size]);
    }
    if name == b"memcpy".as_slice() {
        return count_if(alloc, tables, entry, text, &[text, text, size]);
    }
    if name == b"atoi".as_slice() {
        return count_if(alloc, tables, entry, int, &[text]);
    }
    Ok(None)
}
