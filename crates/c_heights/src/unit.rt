//! Heights of initializers, declarations, statements and external declarations.
ghost use Rattle.std.specs.Prelude.{◌≡◌, Bool, map, option_map, max};
ghost use Rattle.c_grammar.specs.Grammar.{highest};
ghost use Rattle.c_grammar.specs.Units as units;
ghost use Rattle.c_heights.specs.Capped.{capped};
ghost use Rattle.c_heights.specs.Externals as spec;

use crate::expr::{above, declarator_height, expr_height, highest_specifier};
use c_language::{
    Body, Declaration, Designator, Expr, External, ForStart, InitDeclarator, Initializer,
    InitializerItem, Stmt,
};
use plain_data::Shared;

fn designator_height(d: &Designator) -> u32
    ensures { result ≡ capped (units.designator_piece d.now).height }
{
    match d {
        Designator::Member { .. } => 0,
        Designator::Element { index, .. } => expr_height(index.get()),
    }
}

fn highest_designator(items: &[Designator]) -> u32
    ensures { result ≡ capped (highest (map units.designator_piece items.now)) }
{
    let mut most = 0;
    for item in items {
        most = designator_height(item).max(most);
    }
    most
}

/// The height of an initializer.
#[cycle(initializer)]
pub fn initializer_height(i: &Initializer) -> u32
    ensures { result ≡ capped (units.initializer_of i.now).height }
{
    match i {
        Initializer::Value { value } => above(expr_height(value.get())),
        Initializer::List { items, .. } => above(highest_item(items.as_slice())),
    }
}

#[cycle(initializer)]
fn highest_item(items: &[Shared<InitializerItem>]) -> u32
    ensures { result ≡ capped (highest (map units.item_of items.now)) }
{
    let mut most = 0;
    for item in items {
        most = item_height(item.get()).max(most);
    }
    most
}

#[cycle(initializer)]
fn item_height(i: &InitializerItem) -> u32
    ensures { result ≡ capped (units.item_of i.now).height }
{
    highest_designator(i.designators.as_slice()).max(initializer_height(i.value.get()))
}

fn optional_initializer(i: &Option<Initializer>) -> u32
    ensures { result ≡ capped (units.initializer_height i.now) }
{
    match i {
        None => 0,
        Some(i) => initializer_height(i),
    }
}

fn init_height(d: &InitDeclarator) -> u32
    ensures { (is_type : Bool) → result ≡ capped (units.init_piece is_type d.now).height }
{
    declarator_height(&d.declarator).max(optional_initializer(&d.initializer))
}

fn highest_init(items: &[InitDeclarator]) -> u32
    ensures { (is_type : Bool) → result ≡ capped (highest (map (units.init_piece is_type) items.now)) }
{
    let mut most = 0;
    for item in items {
        most = init_height(item).max(most);
    }
    most
}

/// The height of a declaration: the greatest of its specifiers, declarators and initializers.
pub fn declaration_height(d: &Declaration) -> u32
    ensures { result ≡ capped (units.declaration_of d.now).height }
{
    highest_specifier(d.specifiers.as_slice()).max(highest_init(d.declarators.as_slice()))
}

fn optional_expr(e: &Option<Shared<Expr>>) -> u32
    ensures { result ≡ capped (units.value_height e.now) }
{
    match e {
        None => 0,
        Some(e) => expr_height(e.get()),
    }
}

fn start_height(s: &ForStart) -> u32
    ensures { result ≡ capped (units.for_start_height s.now) }
{
    match s {
        ForStart::Value { value } => optional_expr(value),
        ForStart::Declared { declaration } => declaration_height(declaration),
    }
}

/// The height of a statement.
#[cycle(statement)]
pub fn stmt_height(s: &Stmt) -> u32
    ensures { result ≡ capped (units.stmt_shape s.now).height }
{
    match s {
        Stmt::Block { items, .. } => above(highest_stmt(items.as_slice())),
        Stmt::Declared { declaration } => above(declaration_height(declaration)),
        Stmt::Value { value, .. } => above(optional_expr(value)),
        Stmt::Label { body, .. } => above(stmt_height(body.get())),
        Stmt::Case { value, body, .. } => above(expr_height(value.get()).max(stmt_height(
            body.get(),
        ))),
        Stmt::Default { body, .. } => above(stmt_height(body.get())),
        Stmt::If {
            condition,
            positive,
            negative,
            ..
        } => {
            let sides = stmt_height(positive.get()).max(optional_stmt(negative));
            above(expr_height(condition.get()).max(sides))
        }
        Stmt::Switch { value, body, .. } => above(expr_height(value.get()).max(stmt_height(
            body.get(),
        ))),
        Stmt::While {
            condition,
            body,
            ..
        } => above(expr_height(condition.get()).max(stmt_height(body.get()))),
        Stmt::Do {
            body,
            condition,
            ..
        } => above(stmt_height(body.get()).max(expr_height(condition.get()))),
        Stmt::For {
            start,
            condition,
            step,
            body,
            ..
        } => {
            let inner = optional_expr(step).max(stmt_height(body.get()));
            above(start_height(start).max(optional_expr(condition).max(inner)))
        }
        Stmt::Goto { .. } => 1,
        Stmt::Continue { .. } => 1,
        Stmt::Break { .. } => 1,
        Stmt::Return { value, .. } => above(optional_expr(value)),
    }
}

#[cycle(statement)]
fn optional_stmt(s: &Option<Shared<Stmt>>) -> u32
    ensures { result ≡ capped (units.else_height (option_map units.stmt_shape s.now)) }
{
    match s {
        None => 0,
        Some(s) => stmt_height(s.get()),
    }
}

#[cycle(statement)]
fn highest_stmt(items: &[Shared<Stmt>]) -> u32
    ensures { result ≡ capped (units.highest_stmt (map units.stmt_shape items.now)) }
{
    let mut most = 0;
    for item in items {
        most = stmt_height(item.get()).max(most);
    }
    most
}

fn body_height(b: &Body) -> u32
    ensures { result ≡ capped (spec.body_height b.now) }
{
    match b {
        Body::Read { block } => stmt_height(block.get()),
        Body::Unread { .. } => 0,
    }
}

/// The greatest height of what stands in an external declaration; an unread body has none.
pub fn external_height(e: &External) -> u32
    ensures { result ≡ capped (spec.external_height e.now) }
{
    match e {
        External::Function {
            specifiers,
            declarator,
            body,
        } => highest_specifier(specifiers.as_slice())
            .max(declarator_height(declarator))
            .max(body_height(body)),
        External::Declared { declaration } => declaration_height(declaration),
        External::Empty { .. } => 0,
    }
}

/// The greatest height of external declarations.
pub fn highest_external(items: &[Shared<External>]) -> u32
    ensures { result ≡ capped (spec.highest_external items.now) }
{
    let mut most = 0;
    for item in items {
        most = external_height(item.get()).max(most);
    }
    most
}
