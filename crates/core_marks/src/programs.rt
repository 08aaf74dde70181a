//! What stands at the tokens of the functions of a program. All fail for want of memory alone.
ghost use Rattle.std.specs.Prelude.{◌≡◌, ◌++◌, OnOk, IfOk};
ghost use Rattle.core_marks.specs.Programs as programs;

use crate::codes::put_items;
use crate::mark::Mark;
use core_tree::{Core, Function};
use plain_data::Items;
use std::alloc::{AllocError, Global};

/// The functions in front of the library's.
fn put_source_functions(
    alloc: Global,
    functions: &[Function],
    out: &mut Items<Mark>,
) -> Result<(), AllocError>
    ensures { OnOk result (out.new ≡ out.old ++ programs.marks_in_front functions.now) }
{
    for function in functions {
        if function.is_prelude {
            return Ok(());
        }
        put_items(alloc, function.items.as_slice(), out)?;
    }
    Ok(())
}

/// What stands at the tokens of the functions of the source that are reached: a program has them in front of those of
/// the library. It fails for want of memory alone.
pub fn source_marks(alloc: Global, core: &Core) -> Result<Items<Mark>, AllocError>
    ensures { IfOk result (λ marks. marks ≡ programs.source_marks core.now) }
{
    let mut marks = Items::new(alloc);
    put_source_functions(alloc, core.functions.as_slice(), &mut marks)?;
    Ok(marks)
}

fn calls_body(number: usize, mark: &Mark) -> bool
    ensures { result ≡ programs.calls_body number mark.now }
{
    match mark {
        Mark::Body { function, .. } => *function as usize == number,
        _ => false,
    }
}

/// Whether a function is called by its body.
fn is_called(number: usize, marks: &[Mark]) -> bool
    ensures { result ≡ programs.is_called number marks.now }
{
    marks.iter().any(|mark| calls_body(number, mark))
}

/// A function of this number, where it is one of the library that is called.
fn put_library_function(
    alloc: Global,
    calls: &[Mark],
    number: usize,
    function: &Function,
    out: &mut Items<Mark>,
) -> Result<(), AllocError>
    ensures { OnOk result (out.new ≡ out.old ++ programs.library_function_marks calls.now number function.now) }
{
    if function.is_prelude && is_called(number, calls) {
        put_items(alloc, function.items.as_slice(), out)?;
    }
    Ok(())
}

fn put_library_functions(
    alloc: Global,
    calls: &[Mark],
    functions: &[Function],
    out: &mut Items<Mark>,
) -> Result<(), AllocError>
    ensures { OnOk result (out.new ≡ out.old ++ programs.library_functions_marks calls.now 0 functions.now) }
{
    'functions: for number in 0..functions.len() {
        put_library_function(alloc, calls, number, &functions[number], out)?;
    }
    Ok(())
}

/// What stands at the tokens of the functions of the library that a program reaches, given that of the functions of
/// its source. It fails for want of memory alone.
pub fn library_marks(alloc: Global, core: &Core, source: &[Mark]) -> Result<Items<Mark>, AllocError>
    requires { source.now ≡ programs.source_marks core.now }
    ensures { IfOk result (λ marks. marks ≡ programs.library_marks core.now) }
{
    let mut marks = Items::new(alloc);
    put_library_functions(alloc, source, core.functions.as_slice(), &mut marks)?;
    Ok(marks)
}
