//! Where a run stands (C99 6.8), and the value that a function gives (C99 6.8.6.4).
ghost use Rattle.std.specs.Prelude.{◌≡◌};
ghost use Rattle.c_machine.specs.Kinds as kinds;
ghost use Rattle.c_machine.specs.States.{state};

use crate::machine::Machine;
use c_means::Kind;

impl Machine {
    /// Where the run stands.
    pub fn kind(&self) -> &Kind
        ensures { result.now ≡ (state self.now).kind }
    {
        &self.kind
    }

    /// Whether what comes next runs.
    pub fn is_running(&self) -> bool
        ensures { result ≡ kinds.is_running (state self.now).kind }
    {
        match &self.kind {
            Kind::Running => true,
            Kind::Breaking => false,
            Kind::Continuing => false,
            Kind::Returning => false,
            Kind::Going { .. } => false,
            Kind::Choosing { .. } => false,
            Kind::Defaulting => false,
            Kind::Ended(_) => false,
        }
    }

    /// Goes on in another way.
    pub fn turn_to(&mut self, kind: Kind)
        ensures world { self.new.world ≡ self.old.world }
        ensures kind { state self.new ≡ record (state self.old) { kind = kind } }
    {
        self.kind = kind;
    }

    /// Sets the value that the function gives.
    pub fn set_value(&mut self, value: Option<i128>)
        ensures world { self.new.world ≡ self.old.world }
        ensures value { state self.new ≡ record (state self.old) { value = value } }
    {
        self.value = value;
    }
}
