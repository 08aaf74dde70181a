//! Objects of a block (C99 6.2.4, 6.7.8).
ghost use Rattle.std.specs.Prelude.{◌≡◌, IfOk, IfSome};
ghost use Rattle.c_means.specs.Initials as initials;
ghost use Rattle.core_tree.specs.declared.code.Code.TheVariants as code;
ghost use Rattle.core_tree.specs.declared.code.Setting.TheVariants as setting;
ghost use Rattle.code_forms.specs.Nodes.{value_setting_node};

use crate::types::stored_type;
use c_language::{CType, Tables};
use core_tree::{Code, Expr, Setting};
use plain_data::{Bytes, Items, Shared};
use std::alloc::{AllocError, Global};

/// A part of an object of this type, so many bytes behind its first, that is set to a value (C99 6.7.8p11, p13).
pub fn value_setting(tables: &Tables, ctype: &CType, offset: u64, value: Shared<Expr>) -> Setting
    ensures { result ≡ value_setting_node tables.now ctype.now offset value }
{
    Setting::Value {
        offset,
        stored: stored_type(tables, ctype),
        value,
    }
}

/// How many bytes a literal sets in an array of this type: all of it, and of an array of unknown length its own bytes
/// with the 0 behind them (C99 6.7.8p14, p22).
fn text_room(tables: &Tables, ctype: &CType, bytes: &Bytes) -> Option<u64>
    ensures { IfSome result (λ n. n ≡ initials.text_room tables.now ctype.now bytes.now) }
{
    match tables.size_of(ctype) {
        Some(size) => Some(size),
        None => (bytes.len() as u64).checked_add(1),
    }
}

/// An array of characters of this type, so many bytes behind an object's first, that a literal sets (C99 6.7.8p14). It
/// fails for want of memory alone: no literal has 2^64 bytes.
pub fn text_setting(
    tables: &Tables,
    ctype: &CType,
    offset: u64,
    bytes: Bytes,
) -> Result<Setting, AllocError>
    ensures { IfOk result (λ y. y ≡ setting.Text offset (initials.text_room tables.now ctype.now bytes) bytes) }
{
    match text_room(tables, ctype, &bytes) {
        Some(size) => Ok(Setting::Text {
            offset,
            size,
            bytes,
        }),
        None => Err(AllocError),
    }
}

/// An automatic object, by the offset of its declaration: what stands in braces sets it to 0 first, and each part that
/// is initialised is set in order (C99 6.2.4p6, 6.7.8p21, p23). It fails for want of memory alone.
pub fn automatic_object(
    alloc: Global,
    at: u32,
    size: u64,
    is_zeroed: bool,
    settings: Items<Setting>,
) -> Result<Shared<Code>, AllocError>
    ensures { IfOk result (λ y. y ≡ code.Declare at size is_zeroed settings) }
{
    Shared::new(
        alloc,
        Code::Declare {
            at,
            size,
            is_zeroed,
            settings,
        },
    )
}

/// An object that lives throughout the run, where a block declares it, with what its initializer evaluates before the
/// program starts (C99 6.2.4p3). It fails for want of memory alone.
pub fn lasting_object(
    alloc: Global,
    is_defined: bool,
    values: Items<Shared<Expr>>,
) -> Result<Shared<Code>, AllocError>
    ensures { IfOk result (λ y. y ≡ code.Static is_defined values) }
{
    Shared::new(
        alloc,
        Code::Static {
            is_node: is_defined,
            values,
        },
    )
}
