//! Types in words, the outermost derivation first: `pointer to const char`, `array 3 of int`, `function (int, ...)
//! returning void`. A structure, union or enumeration is shown by its number in the tables.

use crate::text::{put, put_count, put_next};
use c_types::{
    AggregateForm, Base, CType, Derivation, Domain, FloatingKind, IntegerKind, Prototype,
    Qualifiers, RealKind, Signature, Tables,
};
use plain_data::Bytes;
use std::alloc::AllocError;

fn integer_name(kind: IntegerKind) -> &'static str {
    match kind {
        IntegerKind::Bool => "_Bool",
        IntegerKind::Char => "char",
        IntegerKind::SignedChar => "signed char",
        IntegerKind::UnsignedChar => "unsigned char",
        IntegerKind::Short => "short",
        IntegerKind::UnsignedShort => "unsigned short",
        IntegerKind::Int => "int",
        IntegerKind::UnsignedInt => "unsigned",
        IntegerKind::Long => "long",
        IntegerKind::UnsignedLong => "unsigned long",
        IntegerKind::LongLong => "long long",
        IntegerKind::UnsignedLongLong => "unsigned long long",
    }
}

fn real_name(kind: RealKind) -> &'static str {
    match kind {
        RealKind::Float => "float",
        RealKind::Double => "double",
        RealKind::LongDouble => "long double",
        RealKind::Float32 => "_Float32",
        RealKind::Float64 => "_Float64",
        RealKind::Float32x => "_Float32x",
        RealKind::Float64x => "_Float64x",
        RealKind::Float128 => "_Float128",
    }
}

fn domain_name(domain: Domain) -> &'static str {
    match domain {
        Domain::Real => "",
        Domain::Complex => "complex ",
        Domain::Imaginary => "imaginary ",
    }
}

fn put_floating(kind: FloatingKind, text: &mut Bytes) -> Result<(), AllocError> {
    put(text, domain_name(kind.domain))?;
    put(text, real_name(kind.real))
}

fn form_name(form: AggregateForm) -> &'static str {
    match form {
        AggregateForm::Structure => "struct",
        AggregateForm::Union => "union",
    }
}

fn aggregate_name(tables: &Tables, number: u32) -> &'static str {
    match tables.aggregates.get(number as usize) {
        Some(aggregate) => form_name(aggregate.form),
        None => "struct",
    }
}

fn put_base(tables: &Tables, base: Base, text: &mut Bytes) -> Result<(), AllocError> {
    match base {
        Base::Void => put(text, "void"),
        Base::Integer(kind) => put(text, integer_name(kind)),
        Base::Floating(kind) => put_floating(kind, text),
        Base::VaList => put(text, "va_list"),
        Base::Enumerated(number) => {
            put(text, "enum")?;
            put_next(text, u64::from(number))
        }
        Base::Aggregate(number) => {
            put(text, aggregate_name(tables, number))?;
            put_next(text, u64::from(number))
        }
    }
}

fn put_qualifiers(qualifiers: Qualifiers, text: &mut Bytes) -> Result<(), AllocError> {
    if qualifiers.is_const {
        put(text, "const ")?;
    }
    if qualifiers.is_volatile {
        put(text, "volatile ")?;
    }
    if qualifiers.is_restrict {
        put(text, "restrict ")?;
    }
    Ok(())
}

fn put_array(length: Option<u64>, text: &mut Bytes) -> Result<(), AllocError> {
    put(text, "array ")?;
    if let Some(length) = length {
        put_count(text, u128::from(length))?;
        put(text, " ")?;
    }
    put(text, "of ")
}

/// What stands behind the parameters of a list that has some, or none.
fn ending(prototype: Prototype, is_empty: bool) -> &'static str {
    match prototype {
        Prototype::Fixed if is_empty => "void",
        Prototype::Variadic => ", ...",
        _ => "",
    }
}

#[cycle(types)]
fn put_parameters(
    tables: &Tables,
    number: u32,
    signature: &Signature,
    text: &mut Bytes,
) -> Result<(), AllocError> {
    let mut gap = "";
    for parameter in &signature.parameters {
        put(text, gap)?;
        put_below(tables, number, parameter, text)?;
        gap = ", ";
    }
    put(
        text,
        ending(signature.prototype, signature.parameters.is_empty()),
    )
}

/// A function's parameters. Those of its signature have signatures of smaller numbers only.
#[cycle(types)]
fn put_signature(
    tables: &Tables,
    below: u32,
    number: u32,
    text: &mut Bytes,
) -> Result<(), AllocError> {
    match tables.signatures.get(number as usize) {
        Some(signature) if number < below => put_parameters(tables, number, signature, text),
        _ => put(text, "?"),
    }
}

#[cycle(types)]
fn put_derivation(
    tables: &Tables,
    below: u32,
    derivation: Derivation,
    text: &mut Bytes,
) -> Result<(), AllocError> {
    match derivation {
        Derivation::Pointer(qualifiers) => {
            put_qualifiers(qualifiers, text)?;
            put(text, "pointer to ")
        }
        Derivation::Array(length) => put_array(length, text),
        Derivation::Function(number) => {
            put(text, "function (")?;
            put_signature(tables, below, number, text)?;
            put(text, ") returning ")
        }
    }
}

/// Puts a type whose functions have signatures below a number.
#[cycle(types)]
fn put_below(
    tables: &Tables,
    below: u32,
    ctype: &CType,
    text: &mut Bytes,
) -> Result<(), AllocError> {
    for derivation in &ctype.derivations {
        put_derivation(tables, below, *derivation, text)?;
    }
    put_qualifiers(ctype.qualifiers, text)?;
    put_base(tables, ctype.base, text)
}

/// Puts a type at the end. It fails for want of memory alone.
pub fn put_type(tables: &Tables, ctype: &CType, text: &mut Bytes) -> Result<(), AllocError> {
    put_below(tables, u32::MAX, ctype, text)
}
