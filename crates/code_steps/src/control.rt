//! Where a run on its way goes on (C99 6.8.1, 6.8.6).
ghost use Rattle.std.specs.Prelude.{◌≡◌, Some, OnOk};
ghost use Rattle.plain_data.specs.declared.run.Finish.TheVariants.{Left};
ghost use Rattle.c_means.specs.declared.kind.Kind.TheVariants as k;
ghost use Rattle.c_means.specs.Items as arriving;
ghost use Rattle.core_tree.specs.States.{arrive, become, finished, running};
ghost use Rattle.core_running.specs.Running.{done};
ghost use Rattle.code_steps.specs.Ways as ways;

use c_language::Name;
use c_machine::Machine;
use c_means::Kind;
use plain_data::Finish;
use std::alloc::AllocError;

/// The run leaves the bounds at a loop's keyword.
pub fn leave_at(at: u32, m: &mut Machine)
    ensures world { m.new.world ≡ m.old.world }
    ensures leaves { done m.new ≡ finished (Left at) (done m.old) }
{
    m.turn_to(Kind::Ended(Finish::Left { at }));
}

/// The function gives a value.
pub fn give(value: i128, m: &mut Machine)
    ensures world { m.new.world ≡ m.old.world }
    ensures gives { done m.new ≡ record (done m.old) { kind = k.Returning; value = Some value } }
{
    m.turn_to(Kind::Returning);
    m.set_value(Some(value));
}

/// A run that is running goes on in another way.
pub fn jump(kind: Kind, m: &mut Machine)
    ensures world { m.new.world ≡ m.old.world }
    ensures runs { running (λ d. Some (become kind d)) (done m.old) ≡ Some (done m.new) }
{
    if m.is_running() {
        m.turn_to(kind);
    }
}

/// `goto` (C99 6.8.6.1). It fails for want of memory alone.
pub fn go_to(name: &Name, m: &mut Machine) -> Result<(), AllocError>
    ensures world { m.new.world ≡ m.old.world }
    ensures runs { OnOk result (running (λ d. Some (become (k.Going name.now) d)) (done m.old) ≡ Some (done m.new)) }
{
    let label = name.clone()?;
    jump(Kind::Going { label }, m);
    Ok(())
}

/// Behind a loop: `break` ends there (C99 6.8.6.3p2).
pub fn past_break(m: &mut Machine)
    ensures world { m.new.world ≡ m.old.world }
    ensures goes { done m.new ≡ arrive arriving.past_break (done m.old) }
{
    if matches!(m.kind(), Kind::Breaking) {
        m.turn_to(Kind::Running);
    }
}

/// Behind the body of a loop: `continue` ends there (C99 6.8.6.2p2).
pub fn past_continue(m: &mut Machine)
    ensures world { m.new.world ≡ m.old.world }
    ensures goes { done m.new ≡ arrive arriving.past_continue (done m.old) }
{
    if matches!(m.kind(), Kind::Continuing) {
        m.turn_to(Kind::Running);
    }
}

/// Behind a `switch`: `break` ends there, and where there is no `default` no part ran (C99 6.8.4.2p5).
pub fn past_switch(m: &mut Machine)
    ensures world { m.new.world ≡ m.old.world }
    ensures goes { done m.new ≡ arrive arriving.past_switch (done m.old) }
{
    if matches!(m.kind(), Kind::Breaking) || matches!(m.kind(), Kind::Defaulting) {
        m.turn_to(Kind::Running);
    }
}

/// Whether the run is on its way to a label of this name.
fn goes_to(kind: &Kind, name: &[u8]) -> bool
    ensures { result ≡ ways.goes_to name.now kind.now }
{
    match kind {
        Kind::Going { label } => label.get().as_slice() == name,
        Kind::Running => false,
        Kind::Breaking => false,
        Kind::Continuing => false,
        Kind::Returning => false,
        Kind::Choosing { .. } => false,
        Kind::Defaulting => false,
        Kind::Ended(_) => false,
    }
}

/// At a label: a `goto` to it ends there (C99 6.8.6.1p2).
pub fn at_label(name: &[u8], m: &mut Machine)
    ensures world { m.new.world ≡ m.old.world }
    ensures goes { done m.new ≡ arrive (arriving.at_label name.now) (done m.old) }
{
    if goes_to(m.kind(), name) {
        m.turn_to(Kind::Running);
    }
}

/// Whether the run is on its way to the case of this value.
fn chooses(kind: &Kind, value: i128) -> bool
    ensures { result ≡ ways.chooses value kind.now }
{
    match kind {
        Kind::Choosing { value: wanted } => *wanted == value,
        Kind::Running => false,
        Kind::Breaking => false,
        Kind::Continuing => false,
        Kind::Returning => false,
        Kind::Going { .. } => false,
        Kind::Defaulting => false,
        Kind::Ended(_) => false,
    }
}

/// At a case of a `switch` (C99 6.8.4.2p4).
pub fn at_case(value: i128, m: &mut Machine)
    ensures world { m.new.world ≡ m.old.world }
    ensures goes { done m.new ≡ arrive (arriving.at_case (Some value)) (done m.old) }
{
    if chooses(m.kind(), value) {
        m.turn_to(Kind::Running);
    }
}

/// At `default` (C99 6.8.4.2p5).
pub fn at_default(m: &mut Machine)
    ensures world { m.new.world ≡ m.old.world }
    ensures goes { done m.new ≡ arrive arriving.at_default (done m.old) }
{
    if matches!(m.kind(), Kind::Defaulting) {
        m.turn_to(Kind::Running);
    }
}
