//! Forms over one value (C99 6.3, 6.5.2.3, 6.5.3, 6.5.4).
ghost use Rattle.std.specs.Prelude.{◌≡◌};
ghost use Rattle.core_tree.specs.Values as core;
ghost use Rattle.core_running.specs.Below.{ReachesValue};
ghost use Rattle.core_running.specs.Settings.{HasWorld};
ghost use Rattle.run_values.specs.Forms.{Fits, RunsAs, EndsAt};

use crate::below::Below;
use crate::memory::load;
use crate::numbers::{address_in, convert, extract, negation, number_in, turned};
use crate::steps::or_stop;
use c_machine::{Halt, Machine, Value};
use core_running::{Found, Frame, Scene};
use core_tree::{Access, Callee, Expr, Turning, ValueType, WordType};
use std::alloc::{AllocError, Global};

impl<
    'a,
    L: Scene,
    V: Fn(Global, &L, &Frame, &Expr, u64, &mut Machine) -> Result<Found, Halt>,
    K: Fn(
        Global,
        &L,
        &Callee,
        u32,
        ValueType,
        &Frame,
        &[Value],
        u64,
        &mut Machine,
    ) -> Result<(), AllocError>,
> Below<'a, L, V, K> {
    /// What stands at an address (C99 6.3.2.1p2).
    pub fn loaded(
        &self,
        access: Access,
        address: &Expr,
        base: u64,
        m: &mut Machine,
    ) -> Result<Found, Halt>
        requires values { ReachesValue L.setting V.Fn self.now.scene self.now.value }
        requires low { Fits (L.setting self.now.scene.now) base (core.loaded access (core.value address.now)) }
        requires world { HasWorld (L.setting self.now.scene.now) m.old }
        ensures world { m.new.world ≡ m.old.world }
        ensures runs { RunsAs (L.setting self.now.scene.now) self.now.frame.now base m.old m.new result (core.loaded access (core.value address.now)) }
        ensures next { EndsAt (L.setting self.now.scene.now) base result (core.loaded access (core.value address.now)) }
    {
        let Found { value, next } = self.value(address, base, m)?;
        let value = load(m, access, address_in(&value)?)?;
        Ok(Found { value, next })
    }

    /// `*operand`: the address that a pointer is (C99 6.5.3.2p4).
    pub fn target(&self, operand: &Expr, base: u64, m: &mut Machine) -> Result<Found, Halt>
        requires values { ReachesValue L.setting V.Fn self.now.scene self.now.value }
        requires low { Fits (L.setting self.now.scene.now) base (core.target (core.value operand.now)) }
        requires world { HasWorld (L.setting self.now.scene.now) m.old }
        ensures world { m.new.world ≡ m.old.world }
        ensures runs { RunsAs (L.setting self.now.scene.now) self.now.frame.now base m.old m.new result (core.target (core.value operand.now)) }
        ensures next { EndsAt (L.setting self.now.scene.now) base result (core.target (core.value operand.now)) }
    {
        let Found { value, next } = self.value(operand, base, m)?;
        Ok(Found {
            value: Value::Number(i128::from(value.address())),
            next,
        })
    }

    /// `&operand`: an address as a pointer (C99 6.5.3.2p3).
    pub fn pointer(&self, operand: &Expr, base: u64, m: &mut Machine) -> Result<Found, Halt>
        requires values { ReachesValue L.setting V.Fn self.now.scene self.now.value }
        requires low { Fits (L.setting self.now.scene.now) base (core.pointer (core.value operand.now)) }
        requires world { HasWorld (L.setting self.now.scene.now) m.old }
        ensures world { m.new.world ≡ m.old.world }
        ensures runs { RunsAs (L.setting self.now.scene.now) self.now.frame.now base m.old m.new result (core.pointer (core.value operand.now)) }
        ensures next { EndsAt (L.setting self.now.scene.now) base result (core.pointer (core.value operand.now)) }
    {
        self.value(operand, base, m)
    }

    /// `.` or `->`: so many bytes behind an address, modulo 2^64 (C99 6.5.2.3).
    pub fn offset(
        &self,
        bytes: u64,
        operand: &Expr,
        base: u64,
        m: &mut Machine,
    ) -> Result<Found, Halt>
        requires values { ReachesValue L.setting V.Fn self.now.scene self.now.value }
        requires low { Fits (L.setting self.now.scene.now) base (core.offset bytes (core.value operand.now)) }
        requires world { HasWorld (L.setting self.now.scene.now) m.old }
        ensures world { m.new.world ≡ m.old.world }
        ensures runs { RunsAs (L.setting self.now.scene.now) self.now.frame.now base m.old m.new result (core.offset bytes (core.value operand.now)) }
        ensures next { EndsAt (L.setting self.now.scene.now) base result (core.offset bytes (core.value operand.now)) }
    {
        let Found { value, next } = self.value(operand, base, m)?;
        let address = address_in(&value)?.wrapping_add(bytes);
        Ok(Found {
            value: Value::Number(i128::from(address)),
            next,
        })
    }

    /// `.` of a value: the bytes of a member, so many behind its first (C99 6.5.2.3p3).
    pub fn extracted(
        &self,
        bytes: u64,
        member: ValueType,
        operand: &Expr,
        base: u64,
        m: &mut Machine,
    ) -> Result<Found, Halt>
        requires values { ReachesValue L.setting V.Fn self.now.scene self.now.value }
        requires low { Fits (L.setting self.now.scene.now) base (core.extract bytes member (core.value operand.now)) }
        requires world { HasWorld (L.setting self.now.scene.now) m.old }
        ensures world { m.new.world ≡ m.old.world }
        ensures runs { RunsAs (L.setting self.now.scene.now) self.now.frame.now base m.old m.new result (core.extract bytes member (core.value operand.now)) }
        ensures next { EndsAt (L.setting self.now.scene.now) base result (core.extract bytes member (core.value operand.now)) }
    {
        let Found { value, next } = self.value(operand, base, m)?;
        let value = extract(self.alloc, bytes, member, &value)?;
        Ok(Found { value, next })
    }

    /// A conversion (C99 6.3).
    pub fn converted(
        &self,
        to: ValueType,
        operand: &Expr,
        base: u64,
        m: &mut Machine,
    ) -> Result<Found, Halt>
        requires values { ReachesValue L.setting V.Fn self.now.scene self.now.value }
        requires low { Fits (L.setting self.now.scene.now) base (core.convert to (core.value operand.now)) }
        requires world { HasWorld (L.setting self.now.scene.now) m.old }
        ensures world { m.new.world ≡ m.old.world }
        ensures runs { RunsAs (L.setting self.now.scene.now) self.now.frame.now base m.old m.new result (core.convert to (core.value operand.now)) }
        ensures next { EndsAt (L.setting self.now.scene.now) base result (core.convert to (core.value operand.now)) }
    {
        let Found { value, next } = self.value(operand, base, m)?;
        Ok(Found {
            value: convert(to, value),
            next,
        })
    }

    /// A cast (C99 6.5.4).
    pub fn cast(
        &self,
        to: ValueType,
        operand: &Expr,
        base: u64,
        m: &mut Machine,
    ) -> Result<Found, Halt>
        requires values { ReachesValue L.setting V.Fn self.now.scene self.now.value }
        requires low { Fits (L.setting self.now.scene.now) base (core.cast to (core.value operand.now)) }
        requires world { HasWorld (L.setting self.now.scene.now) m.old }
        ensures world { m.new.world ≡ m.old.world }
        ensures runs { RunsAs (L.setting self.now.scene.now) self.now.frame.now base m.old m.new result (core.cast to (core.value operand.now)) }
        ensures next { EndsAt (L.setting self.now.scene.now) base result (core.cast to (core.value operand.now)) }
    {
        let Found { value, next } = self.value(operand, base, m)?;
        Ok(Found {
            value: convert(to, value),
            next,
        })
    }

    /// `+`, `-` or `~` (C99 6.5.3.3p2 to p4).
    pub fn turned(
        &self,
        at: u32,
        operator: Turning,
        word: WordType,
        operand: &Expr,
        base: u64,
        m: &mut Machine,
    ) -> Result<Found, Halt>
        requires values { ReachesValue L.setting V.Fn self.now.scene self.now.value }
        requires low { Fits (L.setting self.now.scene.now) base (core.turn at operator word (core.value operand.now)) }
        requires world { HasWorld (L.setting self.now.scene.now) m.old }
        ensures world { m.new.world ≡ m.old.world }
        ensures runs { RunsAs (L.setting self.now.scene.now) self.now.frame.now base m.old m.new result (core.turn at operator word (core.value operand.now)) }
        ensures next { EndsAt (L.setting self.now.scene.now) base result (core.turn at operator word (core.value operand.now)) }
    {
        let Found { value, next } = self.value(operand, base, m)?;
        let answer = turned(operator, word, number_in(&value)?);
        let number = or_stop(m, at, answer)?;
        Ok(Found {
            value: Value::Number(number),
            next,
        })
    }

    /// `!operand` (C99 6.5.3.3p5).
    pub fn negated(&self, operand: &Expr, base: u64, m: &mut Machine) -> Result<Found, Halt>
        requires values { ReachesValue L.setting V.Fn self.now.scene self.now.value }
        requires low { Fits (L.setting self.now.scene.now) base (core.negated (core.value operand.now)) }
        requires world { HasWorld (L.setting self.now.scene.now) m.old }
        ensures world { m.new.world ≡ m.old.world }
        ensures runs { RunsAs (L.setting self.now.scene.now) self.now.frame.now base m.old m.new result (core.negated (core.value operand.now)) }
        ensures next { EndsAt (L.setting self.now.scene.now) base result (core.negated (core.value operand.now)) }
    {
        let Found { value, next } = self.value(operand, base, m)?;
        Ok(Found {
            value: negation(&value),
            next,
        })
    }
}
