//! What code can print.
ghost use Rattle.std.specs.Prelude.{map, option_map, IfOk};
ghost use Rattle.core_tree.specs.Codes as core;
ghost use Rattle.core_tree.specs.Values as values;
ghost use Rattle.log_language.specs.Tells.{GoesMaybe, GoesSetting, GoesSettings, GoesCode};

use crate::told::Told;
use crate::values::tell_value;
use core_tree::{Code, Expr, Setting};
use plain_data::Shared;
use std::alloc::{AllocError, Global};

/// What an expression can print, which may be missing. It fails for want of memory alone.
fn tell_maybe(alloc: Global, e: &Option<Shared<Expr>>, told: &mut Told) -> Result<(), AllocError>
    ensures { IfOk result (λ _. GoesMaybe (option_map values.value e.now) told.old told.new) }
{
    match e {
        Some(e) => {
            tell_value(alloc, e.get(), told)?;
            Ok(())
        }
        None => Ok(()),
    }
}

/// What can be printed where a part of an object is set. It fails for want of memory alone.
fn tell_setting(alloc: Global, setting: &Setting, told: &mut Told) -> Result<(), AllocError>
    ensures { IfOk result (λ _. GoesSetting setting.now told.old told.new) }
{
    match setting {
        Setting::Value { value, .. } => {
            tell_value(alloc, value.get(), told)?;
            Ok(())
        }
        Setting::Text { .. } => Ok(()),
    }
}

/// What can be printed where an object is set. It fails for want of memory alone.
fn tell_settings(alloc: Global, settings: &[Setting], told: &mut Told) -> Result<(), AllocError>
    ensures { IfOk result (λ _. GoesSettings settings.now told.old told.new) }
{
    'settings: for setting in settings {
        tell_setting(alloc, setting, told)?;
    }
    Ok(())
}

/// What code can print. It fails for want of memory alone.
#[cycle(codes)]
fn tell_code(alloc: Global, c: &Code, told: &mut Told) -> Result<(), AllocError>
    ensures { IfOk result (λ _. GoesCode (core.code c.now) told.old told.new) }
{
    match c {
        Code::Nothing { .. } => Ok(()),
        Code::Static { .. } => Ok(()),
        Code::Value { value, .. } => {
            tell_value(alloc, value.get(), told)?;
            Ok(())
        }
        Code::Declare { settings, .. } => {
            tell_settings(alloc, settings.as_slice(), told)?;
            Ok(())
        }
        Code::Block { items, .. } => {
            tell_codes(alloc, items.as_slice(), told)?;
            Ok(())
        }
        Code::Label { body, .. } => {
            tell_code(alloc, body.get(), told)?;
            Ok(())
        }
        Code::Case { body, .. } => {
            tell_code(alloc, body.get(), told)?;
            Ok(())
        }
        Code::Default { body } => {
            tell_code(alloc, body.get(), told)?;
            Ok(())
        }
        Code::If {
            condition,
            positive,
            negative,
            ..
        } => {
            tell_value(alloc, condition.get(), told)?;
            told.save()?;
            tell_code(alloc, positive.get(), told)?;
            told.switch()?;
            tell_code(alloc, negative.get(), told)?;
            told.join(alloc)?;
            Ok(())
        }
        Code::Switch { value, items, .. } => {
            tell_value(alloc, value.get(), told)?;
            tell_codes(alloc, items.as_slice(), told)?;
            Ok(())
        }
        Code::Loop {
            test,
            step,
            body,
            ..
        } => {
            told.enter_loop(alloc)?;
            tell_maybe(alloc, test, told)?;
            tell_code(alloc, body.get(), told)?;
            tell_maybe(alloc, step, told)?;
            told.leave_loop(alloc)?;
            tell_maybe(alloc, test, told)?;
            Ok(())
        }
        Code::Repeat { test, body, .. } => {
            told.enter_loop(alloc)?;
            tell_code(alloc, body.get(), told)?;
            tell_value(alloc, test.get(), told)?;
            told.leave_loop(alloc)?;
            Ok(())
        }
        Code::Goto { .. } => Ok(()),
        Code::Continue => Ok(()),
        Code::Break => Ok(()),
        Code::Return { value } => {
            tell_maybe(alloc, value, told)?;
            Ok(())
        }
    }
}

/// What items can print, one behind the other. It fails for want of memory alone.
#[cycle(codes)]
pub(crate) fn tell_codes(
    alloc: Global,
    cs: &[Shared<Code>],
    told: &mut Told,
) -> Result<(), AllocError>
    ensures { IfOk result (λ _. GoesCode (core.in_turn (map core.code cs.now)) told.old told.new) }
{
    for c in cs {
        tell_code(alloc, c.get(), told)?;
    }
    Ok(())
}
