//! A core of three functions, of which the last is needed by none, is cut.
use crate::cut;
use c_language::Name;
use core_tree::{Callee, Code, Core, Expr, Function, ValueType};
use plain_data::{Bytes, Items, Shared};
use std::alloc::{AllocError, Global};
use std::test::Fail;

/// The numbers of the functions that each function calls.
static CALLED: [u32; 3] = [1, 0, 2];

/// A function that calls the one of a number.
fn caller(alloc: Global, called: u32) -> Result<Function, AllocError> {
    let name: Name = Shared::new(alloc, Bytes::from_slice(alloc, b"f".as_slice())?)?;
    let call = Expr::Call {
        at: 0,
        arguments: Items::new(alloc),
        callee: Callee::Body { function: called },
        answer: ValueType::Void,
        is_used: false,
    };
    let value = Code::Value {
        is_node: true,
        value: Shared::new(alloc, call)?,
    };
    let mut items = Items::new(alloc);
    items.push(Shared::new(alloc, value)?)?;
    Ok(Function {
        at: 0,
        name,
        is_prelude: false,
        may_miss: false,
        parameters: Items::new(alloc),
        items,
    })
}

fn core(alloc: Global, main: u32) -> Result<Core, AllocError> {
    let mut functions = Items::new(alloc);
    for called in &CALLED {
        functions.push(caller(alloc, *called)?)?;
    }
    Ok(Core {
        functions,
        met: Items::new(alloc),
        objects: Items::new(alloc),
        settings: Items::new(alloc),
        places: 0,
        main,
        has_arguments: false,
    })
}

/// The number of `main`, how many functions may stay, and how many do.
static CUTS: [(u32, u32, usize); 6] = [
    (0, 0, 3),
    (0, 1, 3),
    (0, 2, 2),
    (0, 3, 3),
    (0, 4, 3),
    (2, 2, 3),
];

#[test]
fn a_core_is_cut(rt: HostRuntime) -> Result<(), Fail> {
    for (main, count, left) in &CUTS {
        let whole = core(rt.alloc(), *main)?;
        assert_eq!(rt; cut(whole, *count).functions.len(), *left);
    }
    Ok(())
}
