//! How many nodes code unrolls to.
ghost use Rattle.std.specs.Prelude.{◌≡◌};
ghost use Rattle.core_tree.specs.Codes as codes;
ghost use Rattle.core_sizes.specs.Nodes.{capped, option_nodes, setting_nodes, settings_nodes, code_nodes, items_nodes, turns_nodes};

use crate::sizes::Sizes;
use crate::values::{value_size, values_size};
use core_tree::{Code, Expr, Setting};
use plain_data::Shared;

/// A statement is a node, and a part of one is none.
fn counted(is_node: bool) -> u64
    ensures { result ≡ codes.counted is_node }
{
    if is_node { 1 } else { 0 }
}

/// An expression that may be missing.
fn option_size<S: Sizes>(scene: &S, e: &Option<Shared<Expr>>) -> u64
    ensures { result ≡ capped (option_nodes (S.measures scene.now) e.now) }
{
    match e {
        None => 0,
        Some(e) => value_size(scene, e.get()),
    }
}

fn setting_size<S: Sizes>(scene: &S, setting: &Setting) -> u64
    ensures { result ≡ capped (setting_nodes (S.measures scene.now) setting.now) }
{
    match setting {
        Setting::Value { value, .. } => value_size(scene, value.get()),
        Setting::Text { .. } => 1,
    }
}

fn settings_size<S: Sizes>(scene: &S, settings: &[Setting]) -> u64
    ensures { result ≡ capped (settings_nodes (S.measures scene.now) settings.now) }
{
    let mut all: u64 = 0;
    for setting in settings {
        all = setting_size(scene, setting).saturating_add(all);
    }
    all
}

/// A loop, by how many nodes a turn has (C99 6.8.5).
fn turns_size<S: Sizes>(scene: &S, turn: u64) -> u64
    ensures { result ≡ capped (turns_nodes (S.measures scene.now).turns turn) }
{
    turn.saturating_mul(u64::from(scene.turns()) + 1)
        .saturating_add(1)
}

/// How many nodes code unrolls to, or the greatest number of 64 bits where it has more.
#[cycle(sizes)]
pub fn code_size<S: Sizes>(scene: &S, code: &Code) -> u64
    ensures { result ≡ capped (code_nodes (S.measures scene.now) code.now) }
{
    match code {
        Code::Nothing { is_node } => counted(*is_node),
        Code::Value { is_node, value } => {
            value_size(scene, value.get()).saturating_add(counted(*is_node))
        }
        Code::Declare { settings, .. } => settings_size(scene, settings.as_slice()).saturating_add(
            1,
        ),
        Code::Static { is_node, values } => {
            values_size(scene, values.as_slice()).saturating_add(counted(*is_node))
        }
        Code::Block { is_node, items } => {
            items_size(scene, items.as_slice()).saturating_add(counted(*is_node))
        }
        Code::Label { body, .. } => code_size(scene, body.get()).saturating_add(1),
        Code::Case { label, body, .. } => value_size(scene, label.get())
            .saturating_add(code_size(scene, body.get()))
            .saturating_add(1),
        Code::Default { body } => code_size(scene, body.get()).saturating_add(1),
        Code::If {
            condition,
            positive,
            negative,
            ..
        } => {
            let sides = code_size(scene, positive.get()).saturating_add(code_size(
                scene,
                negative.get(),
            ));
            value_size(scene, condition.get())
                .saturating_add(sides)
                .saturating_add(1)
        }
        Code::Switch {
            value,
            is_node,
            items,
            ..
        } => {
            let body = items_size(scene, items.as_slice()).saturating_add(counted(*is_node));
            value_size(scene, value.get())
                .saturating_add(body)
                .saturating_add(1)
        }
        Code::Loop {
            test,
            step,
            body,
            ..
        } => {
            let behind = code_size(scene, body.get()).saturating_add(option_size(scene, step));
            let turn = option_size(scene, test).saturating_add(behind);
            turns_size(scene, turn)
        }
        Code::Repeat { test, body, .. } => {
            let turn = code_size(scene, body.get()).saturating_add(value_size(scene, test.get()));
            turns_size(scene, turn)
        }
        Code::Goto { .. } => 1,
        Code::Continue => 1,
        Code::Break => 1,
        Code::Return { value } => option_size(scene, value).saturating_add(1),
    }
}

/// How many nodes items unroll to, one behind the other, or the greatest number of 64 bits where they have more.
#[cycle(sizes)]
pub fn items_size<S: Sizes>(scene: &S, items: &[Shared<Code>]) -> u64
    ensures { result ≡ capped (items_nodes (S.measures scene.now) items.now) }
{
    let mut all: u64 = 0;
    for item in items {
        all = code_size(scene, item.get()).saturating_add(all);
    }
    all
}
