//! Initializers, declarations, statements and units.
use crate::expr::{declarator, expr, specifiers};
use crate::text::Text;
use c_language::{
    Body, Declaration, Designator, Expr, External, ForStart, InitDeclarator, Initializer,
    InitializerItem, Stmt,
};
use plain_data::{Bytes, Shared};
use std::alloc::{AllocError, Global};

fn designators(text: &mut Text, items: &[Designator]) -> Result<(), AllocError> {
    for item in items {
        match item {
            Designator::Member { at, member } => {
                text.open_at("dot", *at)?;
                text.name(member)?;
                text.close()?;
            }
            Designator::Element { at, index } => {
                text.open_at("element", *at)?;
                expr(text, index.get())?;
                text.close()?;
            }
        }
    }
    Ok(())
}

#[cycle(initializer)]
fn initializer(text: &mut Text, i: &Initializer) -> Result<(), AllocError> {
    match i {
        Initializer::Value { value } => expr(text, value.get()),
        Initializer::List {
            at,
            items,
            trailing,
        } => {
            text.open_at("list", *at)?;
            initializer_items(text, items.as_slice())?;
            if *trailing {
                text.word("trailing")?;
            }
            text.close()
        }
    }
}

#[cycle(initializer)]
fn initializer_items(text: &mut Text, items: &[Shared<InitializerItem>]) -> Result<(), AllocError> {
    for item in items {
        let item = item.get();
        if item.designators.is_empty() {
            initializer(text, item.value.get())?;
        } else {
            text.open("designated")?;
            designators(text, item.designators.as_slice())?;
            initializer(text, item.value.get())?;
            text.close()?;
        }
    }
    Ok(())
}

fn init_declarator(text: &mut Text, d: &InitDeclarator) -> Result<(), AllocError> {
    text.open("declared")?;
    declarator(text, &d.declarator)?;
    if !d.assembler_name.is_empty() {
        text.open("asm")?;
        text.pieces(d.assembler_name.as_slice())?;
        text.close()?;
    }
    if let Some(value) = &d.initializer {
        text.open("initializer")?;
        initializer(text, value)?;
        text.close()?;
    }
    text.close()
}

fn declaration(text: &mut Text, d: &Declaration) -> Result<(), AllocError> {
    text.open("declaration")?;
    specifiers(text, d.specifiers.as_slice())?;
    for item in d.declarators.as_slice() {
        init_declarator(text, item)?;
    }
    text.close()
}

fn optional_expr(text: &mut Text, e: &Option<Shared<Expr>>) -> Result<(), AllocError> {
    match e {
        None => Ok(()),
        Some(e) => expr(text, e.get()),
    }
}

fn expr_or_none(text: &mut Text, e: &Option<Shared<Expr>>) -> Result<(), AllocError> {
    match e {
        None => text.word("none"),
        Some(e) => expr(text, e.get()),
    }
}

fn for_start(text: &mut Text, start: &ForStart) -> Result<(), AllocError> {
    match start {
        ForStart::Value { value } => expr_or_none(text, value),
        ForStart::Declared { declaration: d } => declaration(text, d),
    }
}

/// The start of a statement that jumps: its word, and what it has.
fn jump(text: &mut Text, s: &Stmt) -> Result<(), AllocError> {
    match s {
        Stmt::Goto { at, name } => {
            text.open_at("goto", *at)?;
            text.name(name)
        }
        Stmt::Continue { at } => text.open_at("continue", *at),
        Stmt::Break { at } => text.open_at("break", *at),
        Stmt::Return { at, value } => {
            text.open_at("return", *at)?;
            optional_expr(text, value)
        }
        _ => Ok(()),
    }
}

/// The start of a statement's node: its word, and what stands before its statements.
fn head(text: &mut Text, s: &Stmt) -> Result<(), AllocError> {
    match s {
        Stmt::Block { at, .. } => text.open_at("block", *at),
        Stmt::Value { at, value } => {
            text.open_at("expression", *at)?;
            optional_expr(text, value)
        }
        Stmt::Label { at, name, .. } => {
            text.open_at("label", *at)?;
            text.name(name)
        }
        Stmt::Case { at, value, .. } => with_expr(text, "case", *at, value.get()),
        Stmt::Default { at, .. } => text.open_at("default", *at),
        Stmt::If { at, condition, .. } => with_expr(text, "if", *at, condition.get()),
        Stmt::Switch { at, value, .. } => with_expr(text, "switch", *at, value.get()),
        Stmt::While { at, condition, .. } => with_expr(text, "while", *at, condition.get()),
        Stmt::Do { at, .. } => text.open_at("do", *at),
        Stmt::For {
            at,
            start,
            condition,
            step,
            ..
        } => {
            text.open_at("for", *at)?;
            for_start(text, start)?;
            expr_or_none(text, condition)?;
            expr_or_none(text, step)
        }
        _ => jump(text, s),
    }
}

fn with_expr(text: &mut Text, word: &str, at: u32, e: &Expr) -> Result<(), AllocError> {
    text.open_at(word, at)?;
    expr(text, e)
}

#[cycle(statement)]
fn stmt(text: &mut Text, s: &Stmt) -> Result<(), AllocError> {
    head(text, s)?;
    match s {
        Stmt::Declared { declaration: d } => return declaration(text, d),
        Stmt::Block { items, .. } => stmts(text, items.as_slice())?,
        Stmt::Label { body, .. }
        | Stmt::Case { body, .. }
        | Stmt::Default { body, .. }
        | Stmt::Switch { body, .. }
        | Stmt::While { body, .. }
        | Stmt::For { body, .. } => stmt(text, body.get())?,
        Stmt::If {
            positive,
            negative,
            ..
        } => {
            stmt(text, positive.get())?;
            if let Some(negative) = negative {
                stmt(text, negative.get())?;
            }
        }
        Stmt::Do {
            body,
            condition,
            ..
        } => {
            stmt(text, body.get())?;
            expr(text, condition.get())?;
        }
        _ => (),
    }
    text.close()
}

#[cycle(statement)]
fn stmts(text: &mut Text, items: &[Shared<Stmt>]) -> Result<(), AllocError> {
    for item in items {
        stmt(text, item.get())?;
    }
    Ok(())
}

fn body(text: &mut Text, b: &Body) -> Result<(), AllocError> {
    match b {
        Body::Read { block } => stmt(text, block.get()),
        Body::Unread { at } => {
            text.open_at("unread", *at)?;
            text.close()
        }
    }
}

fn external(text: &mut Text, e: &External) -> Result<(), AllocError> {
    match e {
        External::Function {
            specifiers: words,
            declarator: d,
            body: b,
        } => {
            text.open("function")?;
            specifiers(text, words.as_slice())?;
            declarator(text, d)?;
            body(text, b)?;
            text.close()
        }
        External::Declared { declaration: d } => declaration(text, d),
        External::Empty { at } => {
            text.open_at("empty", *at)?;
            text.close()
        }
    }
}

fn lines(mut text: Text, externals: &[Shared<External>]) -> Result<Bytes, AllocError> {
    for item in externals {
        external(&mut text, item.get())?;
        text.end_line()?;
    }
    Ok(text.into_bytes())
}

/// External declarations as text, a line each, without offsets. It fails for want of memory alone.
pub fn unit_text(alloc: Global, externals: &[Shared<External>]) -> Result<Bytes, AllocError> {
    lines(Text::new(alloc, false), externals)
}

/// External declarations as text, a line each, with the offsets of their nodes. It fails for want of memory alone.
pub fn placed_text(alloc: Global, externals: &[Shared<External>]) -> Result<Bytes, AllocError> {
    lines(Text::new(alloc, true), externals)
}
