//! The functions, made by their steps.
ghost use Rattle.std.specs.Prelude.{◌≡◌, ◌++◌, ◌∷◌, [], IfOk, OnOk, Some};
ghost use Rattle.c_prelude.specs.Benches.{parts};
ghost use Rattle.c_prelude.specs.Steps as spec;
ghost use Rattle.c_means.specs.Prelude as texts;

use crate::bench::{Bench, far, pointed};
use crate::step::Step;
use crate::{comparing, copying, numbers};
use c_language::{Body, Declarator, External, Parameter};
use plain_data::{Bytes, Items, Shared};
use std::alloc::{AllocError, Global};

/// The offsets of a function's name, of the `(` of its parameters, and of a `*` before the name.
#[derive(Clone, Copy)]
struct Head {
    at: u16,
    parenthesis: u16,
    star: Option<u16>,
}

/// Takes a step. It fails for want of memory alone.
fn take(bench: &mut Bench, step: Step) -> Result<(), AllocError>
    ensures { OnOk result (spec.taken step (parts bench.old) ≡ Some (parts bench.new)) }
{
    match step {
        Step::Word { at, word } => bench.word(at, word),
        Step::Const { at } => bench.constant(at),
        Step::Parameter { star, at, letter } => bench.parameter(star, at, letter),
        Step::Integer { at, value } => bench.integer(at, value),
        Step::Character { at, value } => bench.character(at, value),
        Step::Variable { at, letter } => bench.variable(at, letter),
        Step::Group { at } => bench.group(at),
        Step::Subscript { at } => bench.subscript(at),
        Step::Increment { at } => bench.increment(at),
        Step::Unary { at, operator } => bench.unary(at, operator),
        Step::Binary { at, operator } => bench.binary(at, operator),
        Step::Assign { at } => bench.assign(at),
        Step::Cast { at, star } => bench.cast(at, star),
        Step::Declared {
            star,
            at,
            letter,
            is_initialised,
        } => bench.declared(star, at, letter, is_initialised),
        Step::Value { at } => bench.value(at),
        Step::Return { at } => bench.return_value(at),
        Step::While { at } => bench.while_loop(at),
        Step::If { at, has_else } => bench.selection(at, has_else),
        Step::For { at } => bench.for_loop(at),
        Step::Begin => bench.begin(),
        Step::Next => bench.next(),
        Step::Block { at } => bench.block(at),
    }
}

/// Takes steps, one behind the other. It fails for want of memory alone.
fn take_all(bench: &mut Bench, steps: &[Step]) -> Result<(), AllocError>
    ensures { OnOk result (spec.all_taken steps.now (parts bench.old) ≡ Some (parts bench.new)) }
{
    match steps.split_first() {
        Some((first, rest)) => {
            take(bench, *first)?;
            take_all(bench, rest)
        }
        None => Ok(()),
    }
}

/// The declarator of a function of these parameters.
fn declarator(
    alloc: Global,
    name: &[u8],
    head: Head,
    parameters: Items<Shared<Parameter>>,
) -> Result<Declarator, AllocError>
    ensures { IfOk result (λ d. d ≡ spec.function_declarator name.now head parameters) }
{
    let name = Shared::new(alloc, Bytes::from_slice(alloc, name)?)?;
    let at = far(head.at);
    let inner = Shared::new(alloc, Declarator::Name { at, name })?;
    pointed(
        alloc,
        head.star,
        Declarator::Function {
            at: far(head.parenthesis),
            inner,
            parameters,
            variadic: false,
        },
    )
}

/// What stands on a bench behind the steps of a function. Where something else does, that counts as want of memory.
fn ended(name: &[u8], head: Head, bench: Bench) -> Result<Shared<External>, AllocError>
    ensures { IfOk result (λ e. spec.ended name.now head (parts bench) ≡ Some e) }
{
    let Bench {
        alloc,
        specifiers,
        parameters,
        mut stmts,
        ..
    } = bench;
    let declarator = declarator(alloc, name, head, parameters)?;
    match stmts.pop() {
        Some(block) => Shared::new(
            alloc,
            External::Function {
                specifiers,
                declarator,
                body: Body::Read { block },
            },
        ),
        None => Err(AllocError),
    }
}

/// A function by its steps. It fails for want of memory alone.
fn made(
    alloc: Global,
    name: &[u8],
    head: Head,
    steps: &[Step],
) -> Result<Shared<External>, AllocError>
    ensures { IfOk result (λ e. spec.made name.now head steps.now ≡ Some e) }
{
    let mut bench = Bench::new(alloc);
    take_all(&mut bench, steps)?;
    ended(name, head, bench)
}

fn strlen(alloc: Global) -> Result<Shared<External>, AllocError>
    ensures { IfOk result (λ e. e ≡ texts.strlen) }
{
    let head = Head {
        at: 14,
        parenthesis: 20,
        star: None,
    };
    made(alloc, b"strlen", head, &comparing::STRLEN)
}

fn strcmp(alloc: Global) -> Result<Shared<External>, AllocError>
    ensures { IfOk result (λ e. e ≡ texts.strcmp) }
{
    let head = Head {
        at: 93,
        parenthesis: 99,
        star: None,
    };
    made(alloc, b"strcmp", head, &comparing::STRCMP)
}

fn strncmp(alloc: Global) -> Result<Shared<External>, AllocError>
    ensures { IfOk result (λ e. e ≡ texts.strncmp) }
{
    let head = Head {
        at: 243,
        parenthesis: 250,
        star: None,
    };
    made(alloc, b"strncmp", head, &comparing::STRNCMP)
}

fn strchr(alloc: Global) -> Result<Shared<External>, AllocError>
    ensures { IfOk result (λ e. e ≡ texts.strchr) }
{
    let head = Head {
        at: 444,
        parenthesis: 450,
        star: Some(443),
    };
    made(alloc, b"strchr", head, &comparing::STRCHR)
}

fn strcpy(alloc: Global) -> Result<Shared<External>, AllocError>
    ensures { IfOk result (λ e. e ≡ texts.strcpy) }
{
    let head = Head {
        at: 551,
        parenthesis: 557,
        star: Some(550),
    };
    made(alloc, b"strcpy", head, &copying::STRCPY)
}

fn strcat(alloc: Global) -> Result<Shared<External>, AllocError>
    ensures { IfOk result (λ e. e ≡ texts.strcat) }
{
    let head = Head {
        at: 650,
        parenthesis: 656,
        star: Some(649),
    };
    made(alloc, b"strcat", head, &copying::STRCAT)
}

fn memset(alloc: Global) -> Result<Shared<External>, AllocError>
    ensures { IfOk result (λ e. e ≡ texts.memset) }
{
    let head = Head {
        at: 792,
        parenthesis: 798,
        star: Some(791),
    };
    made(alloc, b"memset", head, &copying::MEMSET)
}

fn memcpy(alloc: Global) -> Result<Shared<External>, AllocError>
    ensures { IfOk result (λ e. e ≡ texts.memcpy) }
{
    let head = Head {
        at: 925,
        parenthesis: 931,
        star: Some(924),
    };
    made(alloc, b"memcpy", head, &copying::MEMCPY)
}

fn atoi(alloc: Global) -> Result<Shared<External>, AllocError>
    ensures { IfOk result (λ e. e ≡ texts.atoi) }
{
    let head = Head {
        at: 1095,
        parenthesis: 1099,
        star: None,
    };
    made(alloc, b"atoi", head, &numbers::ATOI)
}

/// The functions of the C library that have a body here: `strlen`, `strcmp`, `strncmp`, `strchr`, `strcpy`, `strcat`,
/// `memset`, `memcpy` and `atoi`, each as the tree of its text. It fails for want of memory alone.
pub fn prelude(alloc: Global) -> Result<Items<Shared<External>>, AllocError>
    ensures { IfOk result (λ xs. xs ≡ texts.externals) }
{
    let mut all = Items::new(alloc);
    all.push(strlen(alloc)?)?;
    all.push(strcmp(alloc)?)?;
    all.push(strncmp(alloc)?)?;
    all.push(strchr(alloc)?)?;
    all.push(strcpy(alloc)?)?;
    all.push(strcat(alloc)?)?;
    all.push(memset(alloc)?)?;
    all.push(memcpy(alloc)?)?;
    all.push(atoi(alloc)?)?;
    Ok(all)
}
