//! Whether statements and declarations call functions of numbers below a bound alone.
ghost use Rattle.std.specs.Prelude.{◌≡◌};
ghost use Rattle.std.specs.List.{list_all};
ghost use Rattle.core_prefix.specs.Calls as calls;

use crate::values::{value_below, values_below};
use core_tree::{Code, Expr, Setting};
use plain_data::Shared;

/// An expression that may be missing.
fn option_below(bound: u32, e: &Option<Shared<Expr>>) -> bool
    ensures { result ≡ calls.option_below bound e.now }
{
    match e {
        None => true,
        Some(e) => value_below(bound, e.get()),
    }
}

fn setting_below(bound: u32, setting: &Setting) -> bool
    ensures { result ≡ calls.setting_below bound setting.now }
{
    match setting {
        Setting::Value { value, .. } => value_below(bound, value.get()),
        Setting::Text { .. } => true,
    }
}

fn settings_below(bound: u32, settings: &[Setting]) -> bool
    ensures { result ≡ list_all (calls.setting_below bound) settings.now }
{
    settings.iter().all(|setting| setting_below(bound, setting))
}

/// Whether each call in code is of a function below a bound.
#[cycle(bounding)]
fn code_below(bound: u32, code: &Code) -> bool
    ensures { result ≡ calls.code_below bound code.now }
{
    match code {
        Code::Nothing { .. } => true,
        Code::Value { value, .. } => value_below(bound, value.get()),
        Code::Declare { settings, .. } => settings_below(bound, settings.as_slice()),
        Code::Static { values, .. } => values_below(bound, values.as_slice()),
        Code::Block { items, .. } => items_below(bound, items.as_slice()),
        Code::Label { body, .. } => code_below(bound, body.get()),
        Code::Case { label, body, .. } => {
            value_below(bound, label.get()) && code_below(bound, body.get())
        }
        Code::Default { body } => code_below(bound, body.get()),
        Code::If {
            condition,
            positive,
            negative,
            ..
        } => {
            value_below(bound, condition.get())
                && code_below(bound, positive.get())
                && code_below(bound, negative.get())
        }
        Code::Switch { value, items, .. } => {
            value_below(bound, value.get()) && items_below(bound, items.as_slice())
        }
        Code::Loop {
            test,
            step,
            body,
            ..
        } => {
            option_below(bound, test) && option_below(bound, step) && code_below(bound, body.get())
        }
        Code::Repeat { test, body, .. } => {
            value_below(bound, test.get()) && code_below(bound, body.get())
        }
        Code::Goto { .. } => true,
        Code::Continue => true,
        Code::Break => true,
        Code::Return { value } => option_below(bound, value),
    }
}

/// Whether each call in items is of a function below a bound.
#[cycle(bounding)]
pub(crate) fn items_below(bound: u32, items: &[Shared<Code>]) -> bool
    ensures { result ≡ list_all (calls.code_below bound) items.now }
{
    for item in items {
        if !code_below(bound, item.get()) {
            return false;
        }
    }
    true
}
