//! One expression of a list in braces (C99 6.7.8p13, p14, p17, p20).

ghost use Rattle.std.specs.Prelude.{◌≡◌, ◌||◌, [], ◌∷◌, ◌++◌, IfOk};
ghost use Rattle.c_language.specs.Scopes as scopes;
ghost use Rattle.c_language.specs.Typing.{fault_at, typed_in};
ghost use Rattle.c_language.specs.declared.scope.Rule.TheVariants as rule;
ghost use Rattle.c_language.specs.Initials as spec;
ghost use Rattle.c_initials.specs.Filled.{filling_in, descent, no_filling};

use crate::frames::{Frame, Frames};
use crate::parts::{Part, part_at};
use crate::values::{is_scalar_part, is_text_of, is_whole_of, length_of, part_faults};
use c_language::{Fault, Rule, Told};
use c_type_scope::Scope;
use plain_data::{Items, Shared};
use std::alloc::{AllocError, Global};
use std::marker::Model;

/// No type has more levels than the longest source has bytes.
const MOST_LEVELS: u32 = 8_388_608;

/// Where the closest braces have come to, apart from the scope behind: the frames, how many parts of the braces' object
/// were met, the parts that the expressions initialise, in the order of the expressions, and the rules that are broken.
#[derive(Drop)]
pub struct Filling {
    pub frames: Frames,
    pub high: u64,
    pub parts: Items<Shared<Part>>,
    pub faults: Items<Fault>,
}

impl Model for Filling {
    ghost use Rattle.c_initials.specs.Filled.{Filled};

    ghost Value = { Filled };

    ghost view = { λ x. record { frames = x.frames; high = x.high; parts = x.parts; faults = x.faults } };
}

impl Filling {
    /// Nothing is met so far. It takes no memory.
    pub fn new(alloc: Global) -> Filling
        ensures { result ≡ no_filling }
    {
        Filling {
            frames: Frames::new(alloc),
            high: 0,
            parts: Items::new(alloc),
            faults: Items::new(alloc),
        }
    }
}

impl Filling {
    /// An object within this one is initialised next. It fails for want of memory alone.
    pub(crate) fn within(self, frame: Frame) -> Result<Filling, AllocError>
        ensures { IfOk result (λ z. z ≡ record self { frames = frame ∷ self.frames }) }
    {
        let Filling {
            frames,
            high,
            parts,
            faults,
        } = self;
        let frames = frames.with(frame)?;
        Ok(Filling {
            frames,
            high,
            parts,
            faults,
        })
    }
}

/// An expression that initialises a part, with the frames behind it. It fails for want of memory alone.
pub(crate) fn fills_part(
    alloc: Global,
    scope: &Scope,
    told: Told,
    part: Shared<Part>,
    filling: Filling,
) -> Result<Filling, AllocError>
    ensures { IfOk result (λ z. filling_in z scope.now ≡ spec.fills_part (typed_in told scope.now) part filling.frames (filling_in filling scopes.empty)) }
{
    let faults = part_faults(alloc, scope, part.get().ctype.get(), told)?;
    let mut filling = filling;
    filling.high = filling.frames.high(filling.high);
    filling.parts.push(part)?;
    filling.faults.append(faults)?;
    Ok(filling)
}

/// More expressions than parts (C99 6.7.8p2). It fails for want of memory alone.
fn surplus(alloc: Global, told: Told, filling: Filling) -> Result<Filling, AllocError>
    ensures { IfOk result (λ z. z ≡ record filling { frames = []; faults = filling.faults ++ told.faults ++ fault_at told.at rule.TypeMismatch }) }
{
    let mut filling = filling;
    filling.frames = Frames::new(alloc);
    filling.faults.append(told.faults)?;
    filling.faults.push(Fault {
        at: told.at,
        rule: Rule::TypeMismatch,
    })?;
    Ok(filling)
}

fn is_filled(alloc: Global, part: &Part, told: &Told) -> Result<bool, AllocError>
    ensures { IfOk result (λ b. b ≡ (spec.is_scalar_part part.now.type || spec.is_whole_of part.now.type (typed_in told.now scopes.empty))) }
{
    if is_scalar_part(part.ctype.get()) {
        Ok(true)
    } else {
        is_whole_of(alloc, part.ctype.get(), told)
    }
}

/// A part, and the frames behind it.
#[derive(Drop)]
pub(crate) struct Found {
    part: Shared<Part>,
    frames: Frames,
}

impl Model for Found {
    ghost use Rattle.std.specs.Prelude.{List};
    ghost use Rattle.c_language.specs.Initials as spec;

    ghost Value = { spec.Part × List spec.Frame };

    ghost view = { λ x. (x.part, x.frames) };
}

/// One step down: the next part of the innermost frame, where the expression initialises it, or that part as the
/// innermost frame.
fn descended(
    alloc: Global,
    scope: &Scope,
    told: &Told,
    frame: Frame,
    frames: Frames,
) -> Result<Result<Found, Frames>, AllocError>
    ensures { IfOk result (λ r. r ≡ descent scope.now.tables (typed_in told.now scope.now) frame frames) }
{
    let part = part_at(alloc, scope.tables(), &frame.whole, frame.next)?;
    let frames = frames.with(frame.stepped(scope.tables()))?;
    if is_filled(alloc, part.get(), told)? {
        Ok(Ok(Found { part, frames }))
    } else {
        Ok(Err(frames.with(Frame::started(part))?))
    }
}

/// The first part of a part, and of that, down to one that the expression initialises as a whole (C99 6.7.8p20).
fn descends(
    alloc: Global,
    scope: &Scope,
    told: &Told,
    frames: Frames,
) -> Result<Option<Found>, AllocError>
    ensures { IfOk result (λ found. found ≡ spec.descends spec.most_levels scope.now.tables (typed_in told.now scope.now) frames) }
{
    let mut frames = frames;
    let mut levels = MOST_LEVELS;
    'levels: while levels > 0 {
        levels -= 1;
        match frames.pop() {
            None => return Ok(None),
            Some(frame) => match descended(alloc, scope, told, frame, frames)? {
                Ok(found) => return Ok(Some(found)),
                Err(deeper) => frames = deeper.with_part_left(scope.tables()),
            },
        }
    }
    Ok(None)
}

/// Whether a literal in braces initialises the braces' object itself (C99 6.7.8p14). It fails for want of memory alone.
fn is_braced_text(alloc: Global, frames: &Frames, told: &Told) -> Result<bool, AllocError>
    ensures { IfOk result (λ b. b ≡ spec.is_braced_text frames.now (typed_in told.now scopes.empty)) }
{
    match frames.only() {
        Some(frame) if frame.next == 0 => is_text_of(alloc, frame.whole.get().ctype.get(), told),
        _ => Ok(false),
    }
}

fn braced_text(
    alloc: Global,
    scope: &Scope,
    told: Told,
    filling: Filling,
) -> Result<Filling, AllocError>
    ensures { IfOk result (λ z. filling_in z scope.now ≡ spec.braced_text filling.frames (typed_in told scope.now) (filling_in filling scopes.empty)) }
{
    let length = length_of(&told.shown);
    let mut filling = filling;
    match filling.frames.pop() {
        None => surplus(alloc, told, filling),
        Some(frame) => {
            let whole = frame.whole.clone()?;
            let filling = filling.within(Frame {
                whole: frame.whole,
                next: length,
            })?;
            let mut filling = fills_part(alloc, scope, told, whole, filling)?;
            filling.high = length;
            Ok(filling)
        }
    }
}

fn fills_next(
    alloc: Global,
    scope: &Scope,
    told: Told,
    filling: Filling,
) -> Result<Filling, AllocError>
    ensures { IfOk result (λ z. filling_in z scope.now ≡ spec.fills_found (typed_in told scope.now) (spec.descends spec.most_levels scope.now.tables (typed_in told scope.now) (spec.with_part_left scope.now.tables filling.frames)) (filling_in filling scopes.empty)) }
{
    let Filling {
        frames,
        high,
        parts,
        faults,
    } = filling;
    let frames = frames.with_part_left(scope.tables());
    match descends(alloc, scope, &told, frames)? {
        None => surplus(
            alloc,
            told,
            Filling {
                frames: Frames::new(alloc),
                high,
                parts,
                faults,
            },
        ),
        Some(Found { part, frames }) => fills_part(
            alloc,
            scope,
            told,
            part,
            Filling {
                frames,
                high,
                parts,
                faults,
            },
        ),
    }
}

/// An expression of a list in braces, without designators. It fails for want of memory alone.
pub fn fills_value(
    alloc: Global,
    scope: &Scope,
    told: Told,
    filling: Filling,
) -> Result<Filling, AllocError>
    ensures { IfOk result (λ z. filling_in z scope.now ≡ spec.fills_value (typed_in told scope.now) (filling_in filling scopes.empty)) }
{
    if is_braced_text(alloc, &filling.frames, &told)? {
        braced_text(alloc, scope, told, filling)
    } else {
        fills_next(alloc, scope, told, filling)
    }
}
