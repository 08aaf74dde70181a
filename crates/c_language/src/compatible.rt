//! When two declarations may be of one thing (C99 6.2.7).
ghost use Rattle.std.specs.Prelude.{◌≡◌, IfOk, slice_get};
ghost use Rattle.c_language.specs.Compatible as spec;

use crate::ctype::{
    Base, CType, Derivation, Domain, FloatingKind, IntegerKind, Qualifiers, RealKind,
};
use crate::tables::{Prototype, Signature, Tables};
use plain_data::Items;
use std::alloc::{AllocError, Global};

impl IntegerKind {
    fn number(self) -> u8
        ensures { result ≡ spec.kind_number self }
    {
        match self {
            IntegerKind::Bool => 0,
            IntegerKind::Char => 1,
            IntegerKind::SignedChar => 2,
            IntegerKind::UnsignedChar => 3,
            IntegerKind::Short => 4,
            IntegerKind::UnsignedShort => 5,
            IntegerKind::Int => 6,
            IntegerKind::UnsignedInt => 7,
            IntegerKind::Long => 8,
            IntegerKind::UnsignedLong => 9,
            IntegerKind::LongLong => 10,
            IntegerKind::UnsignedLongLong => 11,
        }
    }

    fn is_same(self, other: IntegerKind) -> bool
        ensures { result ≡ spec.same_kind self other }
    {
        self.number() == other.number()
    }
}

impl RealKind {
    fn number(self) -> u8
        ensures { result ≡ spec.real_number self }
    {
        match self {
            RealKind::Float => 0,
            RealKind::Double => 1,
            RealKind::LongDouble => 2,
            RealKind::Float32 => 3,
            RealKind::Float64 => 4,
            RealKind::Float32x => 5,
            RealKind::Float64x => 6,
            RealKind::Float128 => 7,
        }
    }
}

impl Domain {
    fn number(self) -> u8
        ensures { result ≡ spec.domain_number self }
    {
        match self {
            Domain::Real => 0,
            Domain::Complex => 1,
            Domain::Imaginary => 2,
        }
    }
}

impl FloatingKind {
    fn is_same(self, other: FloatingKind) -> bool
        ensures { result ≡ spec.same_floating self other }
    {
        self.real.number() == other.real.number() && self.domain.number() == other.domain.number()
    }

    fn is_float(self) -> bool
        ensures { result ≡ spec.is_float self }
    {
        self.is_same(FloatingKind {
            real: RealKind::Float,
            domain: Domain::Real,
        })
    }
}

fn agree(a: bool, b: bool) -> bool
    ensures { result ≡ spec.agree a b }
{
    if a { b } else { !b }
}

impl Qualifiers {
    fn is_same(self, other: Qualifiers) -> bool
        ensures { result ≡ spec.same_qualifiers self other }
    {
        agree(self.is_const, other.is_const)
            && agree(self.is_volatile, other.is_volatile)
            && agree(self.is_restrict, other.is_restrict)
    }
}

impl Base {
    fn agrees(self, other: Base) -> bool
        ensures { result ≡ spec.bases_agree self other }
    {
        match (self, other) {
            (Base::Void, Base::Void) => true,
            (Base::Integer(a), Base::Integer(b)) => a.is_same(b),
            (Base::Integer(a), Base::Enumerated(_)) => a.is_same(IntegerKind::Int),
            (Base::Enumerated(_), Base::Integer(b)) => b.is_same(IntegerKind::Int),
            (Base::Floating(a), Base::Floating(b)) => a.is_same(b),
            (Base::VaList, Base::VaList) => true,
            (Base::Enumerated(a), Base::Enumerated(b)) => a == b,
            (Base::Aggregate(a), Base::Aggregate(b)) => a == b,
            _ => false,
        }
    }

    fn is_default(self) -> bool
        ensures { result ≡ spec.is_default_base self }
    {
        match self {
            Base::Void => true,
            Base::Integer(kind) => kind.is_same(kind.promoted()),
            Base::Floating(kind) => !kind.is_float(),
            Base::VaList => true,
            Base::Enumerated(_) => true,
            Base::Aggregate(_) => true,
        }
    }
}

fn lengths_agree(a: Option<u64>, b: Option<u64>) -> bool
    ensures { result ≡ spec.lengths_agree a b }
{
    match (a, b) {
        (Some(a), Some(b)) => a == b,
        _ => true,
    }
}

fn is_default(ctype: &CType) -> bool
    ensures { result ≡ spec.is_default ctype.now }
{
    match ctype.derivations.as_slice().first() {
        Some(_) => true,
        None => ctype.base.is_default(),
    }
}

fn are_default(types: &[CType]) -> bool
    ensures { result ≡ spec.are_default types.now }
{
    types.iter().all(|ctype| is_default(ctype))
}

fn are_none(types: &[CType]) -> bool
    ensures { result ≡ spec.are_none types.now }
{
    match types.first() {
        Some(_) => false,
        None => true,
    }
}

impl Tables {
    #[cycle(compatible)]
    fn step_agrees(&self, depth: usize, a: Derivation, b: Derivation) -> bool
        ensures { result ≡ spec.step_agrees (spec.signatures_at depth self.now) a b }
    {
        match (a, b) {
            (Derivation::Pointer(p), Derivation::Pointer(q)) => p.is_same(q),
            (Derivation::Array(n), Derivation::Array(m)) => lengths_agree(n, m),
            (Derivation::Function(f), Derivation::Function(g)) => self.signatures_agree(
                depth, f, g,
            ),
            (Derivation::Pointer(_), Derivation::Array(_)) => false,
            (Derivation::Pointer(_), Derivation::Function(_)) => false,
            (Derivation::Array(_), Derivation::Pointer(_)) => false,
            (Derivation::Array(_), Derivation::Function(_)) => false,
            (Derivation::Function(_), Derivation::Pointer(_)) => false,
            (Derivation::Function(_), Derivation::Array(_)) => false,
        }
    }

    #[cycle(compatible)]
    fn derivations_agree(
        &self,
        depth: usize,
        t: &CType,
        u: &CType,
        ds: &[Derivation],
        es: &[Derivation],
    ) -> bool
        ensures { result ≡ spec.derivations_agree (spec.signatures_at depth self.now) t.now u.now ds.now es.now }
    {
        let mut left = ds;
        let mut right = es;
        'steps: while let (Some((d, ds_rest)), Some((e, es_rest))) = (
            left.split_first(),
            right.split_first(),
        ) {
            if !self.step_agrees(depth, *d, *e) {
                return false;
            }
            left = ds_rest;
            right = es_rest;
        }
        left.is_empty()
            && right.is_empty()
            && t.base.agrees(u.base)
            && t.qualifiers.is_same(u.qualifiers)
    }

    #[cycle(compatible)]
    fn unqualified_agree(&self, depth: usize, t: &CType, u: &CType) -> bool
        ensures { result ≡ spec.parameters_at depth self.now t.now u.now }
    {
        let ds = t.derivations.as_slice();
        let es = u.derivations.as_slice();
        match (ds.split_first(), es.split_first()) {
            (None, None) => t.base.agrees(u.base),
            (Some((Derivation::Pointer(_), ds)), Some((Derivation::Pointer(_), es))) => {
                self.derivations_agree(depth, t, u, ds, es)
            }
            _ => self.derivations_agree(depth, t, u, ds, es),
        }
    }

    #[cycle(compatible)]
    fn parameters_agree(&self, depth: usize, ts: &[CType], us: &[CType]) -> bool
        ensures { result ≡ spec.parameters_agree (spec.parameters_at depth self.now) ts.now us.now }
    {
        let mut left = ts;
        let mut right = us;
        'types: while let (Some((t, ts_rest)), Some((u, us_rest))) = (
            left.split_first(),
            right.split_first(),
        ) {
            if !self.unqualified_agree(depth, t, u) {
                return false;
            }
            left = ts_rest;
            right = us_rest;
        }
        left.is_empty() && right.is_empty()
    }

    #[cycle(compatible)]
    fn prototypes_agree(&self, depth: usize, f: &Signature, g: &Signature) -> bool
        ensures { result ≡ spec.prototypes_agree (spec.parameters_at depth self.now)
            f.now.prototype g.now.prototype f.now.parameters g.now.parameters }
    {
        let ts = f.parameters.as_slice();
        let us = g.parameters.as_slice();
        match (f.prototype, g.prototype) {
            (Prototype::Fixed, Prototype::Fixed) => self.parameters_agree(depth, ts, us),
            (Prototype::Variadic, Prototype::Variadic) => self.parameters_agree(depth, ts, us),
            (Prototype::Variadic, _) => false,
            (_, Prototype::Variadic) => false,
            (Prototype::Fixed, Prototype::Unspecified) => are_default(ts),
            (Prototype::Unspecified, Prototype::Fixed) => are_default(us),
            (Prototype::Fixed, Prototype::EmptyDefinition) => are_none(ts),
            (Prototype::EmptyDefinition, Prototype::Fixed) => are_none(us),
            (Prototype::Unspecified, Prototype::Unspecified) => true,
            (Prototype::Unspecified, Prototype::EmptyDefinition) => true,
            (Prototype::EmptyDefinition, Prototype::Unspecified) => true,
            (Prototype::EmptyDefinition, Prototype::EmptyDefinition) => true,
        }
    }

    #[cycle(compatible)]
    fn signatures_agree(&self, depth: usize, f: u32, g: u32) -> bool
        ensures { result ≡ spec.signatures_at depth self.now f g }
    {
        if f == g || depth == 0 {
            return f == g;
        }
        match (
            self.signatures.get(f as usize),
            self.signatures.get(g as usize),
        ) {
            (Some(f), Some(g)) => self.prototypes_agree(depth - 1, f, g),
            (Some(_), None) => false,
            (None, _) => false,
        }
    }

    /// Whether two types are compatible (C99 6.2.7).
    pub fn compatible(&self, t: &CType, u: &CType) -> bool
        ensures { result ≡ spec.compatible self.now t.now u.now }
    {
        let depth = self.signatures.len();
        self.derivations_agree(
            depth,
            t,
            u,
            t.derivations.as_slice(),
            u.derivations.as_slice(),
        )
    }

    fn has_prototype(&self, signature: u32) -> bool
        ensures { result ≡ spec.has_prototype (slice_get self.now.signatures signature) }
    {
        match self.signatures.get(signature as usize) {
            Some(signature) => matches!(
                signature.prototype,
                Prototype::Fixed | Prototype::Variadic
            ),
            None => false,
        }
    }

    fn known_signature(&self, f: u32, g: u32) -> u32
        ensures { result ≡ spec.known_signature self.now f g }
    {
        if self.has_prototype(f) {
            f
        } else if self.has_prototype(g) {
            g
        } else {
            f
        }
    }

    fn merged(&self, a: Derivation, b: Derivation) -> Derivation
        ensures { result ≡ spec.merged self.now a b }
    {
        match (a, b) {
            (Derivation::Array(n), Derivation::Array(m)) => Derivation::Array(n.or(m)),
            (Derivation::Function(f), Derivation::Function(g)) => {
                Derivation::Function(self.known_signature(f, g))
            }
            (Derivation::Pointer(_), _) => a,
            (Derivation::Array(_), Derivation::Pointer(_)) => a,
            (Derivation::Array(_), Derivation::Function(_)) => a,
            (Derivation::Function(_), Derivation::Pointer(_)) => a,
            (Derivation::Function(_), Derivation::Array(_)) => a,
        }
    }

    /// The composite type of two compatible types (C99 6.2.7p3): derived as both are, with the numbers of elements and
    /// the prototype that one of them tells; of two prototypes the first. It fails for want of memory alone.
    pub fn composite(&self, alloc: Global, t: &CType, u: &CType) -> Result<CType, AllocError>
        ensures { IfOk result (λ c. c ≡ spec.composite self.now t.now u.now) }
    {
        let mut left = t.derivations.as_slice();
        let mut right = u.derivations.as_slice();
        let mut derivations = Items::new(alloc);
        'steps: while let (Some((d, ds)), Some((e, es))) = (
            left.split_first(),
            right.split_first(),
        ) {
            derivations.push(self.merged(*d, *e))?;
            left = ds;
            right = es;
        }
        derivations.extend_from_slice(left)?;
        Ok(CType {
            derivations,
            base: t.base,
            qualifiers: t.qualifiers,
        })
    }
}
