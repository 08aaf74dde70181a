//! A declaration in the core.
ghost use Rattle.std.specs.Prelude.{◌≡◌, IfOk};
ghost use Rattle.core_objects.specs.Begun as spec;

use core_tree::{Code, LastingSetting};
use plain_data::{Items, Shared};
use std::alloc::{AllocError, Global};

/// A declaration in the core: the codes of its items in a block, in order, and what the initializers of the objects in
/// it that live throughout the run set before `main` is called (C99 6.2.4p3), in order.
#[derive(Drop)]
pub struct Begun {
    pub codes: Items<Shared<Code>>,
    pub settings: Items<LastingSetting>,
}

/// What declares nothing. It takes no memory.
pub fn nothing_begun(alloc: Global) -> Begun
    ensures { result ≡ spec.nothing_begun }
{
    Begun {
        codes: Items::new(alloc),
        settings: Items::new(alloc),
    }
}

/// One item.
pub fn one_begun(
    alloc: Global,
    code: Shared<Code>,
    settings: Items<LastingSetting>,
) -> Result<Begun, AllocError>
    ensures { IfOk result (λ y. y ≡ spec.one_begun code settings) }
{
    let mut codes = Items::new(alloc);
    codes.push(code)?;
    Ok(Begun { codes, settings })
}

/// One declaration behind the other.
pub fn joined(first: Begun, second: Begun) -> Result<Begun, AllocError>
    ensures { IfOk result (λ y. y ≡ spec.joined first second) }
{
    let Begun {
        mut codes,
        mut settings,
    } = first;
    codes.append(second.codes)?;
    settings.append(second.settings)?;
    Ok(Begun { codes, settings })
}
