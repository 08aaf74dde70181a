ghost use Rattle.std.specs.Prelude.{◌≡◌, ◌<◌, ◌+◌, cond, ◌&&◌, ◌||◌, IfOk};
ghost use Rattle.cnf_core.specs.Truth.{literal_holds};
ghost use Rattle.gates.specs.Nets.{IsBit, IsGate, bit_holds, exclusive, majority};

use crate::bit::Bit;
use crate::cell::Cell;
use crate::gates::{BlastFault, Gates};
use cnf_core::Lit;

impl Gates {
    /// Whether both literals are true.
    fn and_literals(&mut self, a: Lit, b: Lit) -> Result<Bit, BlastFault>
        requires a { a.variable < self.old.count + 1 }
        requires b { b.variable < self.old.count + 1 }
        ensures { IfOk result (IsGate self.old self.new (λ v. literal_holds v a && literal_holds v b)) }
    {
        if a == b {
            return Ok(Bit::Unknown(a));
        }
        if a == b.negated() {
            return Ok(Bit::Known(false));
        }
        if a.code() < b.code() {
            self.gate(Cell::And(a.code(), b.code()))
        } else {
            self.gate(Cell::And(b.code(), a.code()))
        }
    }

    /// Whether both bits are true.
    pub fn and(&mut self, a: Bit, b: Bit) -> Result<Bit, BlastFault>
        requires a { IsBit self.old a }
        requires b { IsBit self.old b }
        ensures { IfOk result (IsGate self.old self.new (λ v. bit_holds v a && bit_holds v b)) }
    {
        match a {
            Bit::Known(true) => Ok(b),
            Bit::Known(false) => Ok(a),
            Bit::Unknown(one) => match b {
                Bit::Known(true) => Ok(a),
                Bit::Known(false) => Ok(b),
                Bit::Unknown(other) => self.and_literals(one, other),
            },
        }
    }

    /// Whether one of the bits is true.
    pub fn or(&mut self, a: Bit, b: Bit) -> Result<Bit, BlastFault>
        requires a { IsBit self.old a }
        requires b { IsBit self.old b }
        ensures { IfOk result (IsGate self.old self.new (λ v. bit_holds v a || bit_holds v b)) }
    {
        let neither = self.and(a.negated(), b.negated())?;
        Ok(neither.negated())
    }

    /// Whether one of two variables is true, and the other isn't.
    fn xor_variables(&mut self, a: Lit, b: Lit) -> Result<Bit, BlastFault>
        requires a { a.variable < self.old.count + 1 }
        requires b { b.variable < self.old.count + 1 }
        ensures { IfOk result (IsGate self.old self.new (λ v. exclusive (literal_holds v a) (literal_holds v b))) }
    {
        if a == b {
            return Ok(Bit::Known(false));
        }
        if a.code() < b.code() {
            self.gate(Cell::Xor(a.code(), b.code()))
        } else {
            self.gate(Cell::Xor(b.code(), a.code()))
        }
    }

    /// Whether one of two literals is true, and the other isn't. Signs go to the result, so that one gate serves.
    fn xor_literals(&mut self, a: Lit, b: Lit) -> Result<Bit, BlastFault>
        requires a { a.variable < self.old.count + 1 }
        requires b { b.variable < self.old.count + 1 }
        ensures { IfOk result (IsGate self.old self.new (λ v. exclusive (literal_holds v a) (literal_holds v b))) }
    {
        match (a.is_positive(), b.is_positive()) {
            (true, true) => self.xor_variables(a, b),
            (false, false) => self.xor_variables(a.negated(), b.negated()),
            (true, false) => {
                let same = self.xor_variables(a, b.negated())?;
                Ok(same.negated())
            }
            (false, true) => {
                let same = self.xor_variables(a.negated(), b)?;
                Ok(same.negated())
            }
        }
    }

    /// Whether one of the bits is true, and the other isn't.
    pub fn xor(&mut self, a: Bit, b: Bit) -> Result<Bit, BlastFault>
        requires a { IsBit self.old a }
        requires b { IsBit self.old b }
        ensures { IfOk result (IsGate self.old self.new (λ v. exclusive (bit_holds v a) (bit_holds v b))) }
    {
        match a {
            Bit::Known(true) => Ok(b.negated()),
            Bit::Known(false) => Ok(b),
            Bit::Unknown(one) => match b {
                Bit::Known(true) => Ok(a.negated()),
                Bit::Known(false) => Ok(a),
                Bit::Unknown(other) => self.xor_literals(one, other),
            },
        }
    }

    /// Whether at least two of three literals are true.
    fn majority_literals(&mut self, a: Lit, b: Lit, c: Lit) -> Result<Bit, BlastFault>
        requires a { a.variable < self.old.count + 1 }
        requires b { b.variable < self.old.count + 1 }
        requires c { c.variable < self.old.count + 1 }
        ensures { IfOk result (IsGate self.old self.new
            (λ v. majority (literal_holds v a) (literal_holds v b) (literal_holds v c))) }
    {
        if a == b || a == c {
            return Ok(Bit::Unknown(a));
        }
        if b == c || a == b.negated() {
            return Ok(Bit::Unknown(c));
        }
        if a == c.negated() {
            return Ok(Bit::Unknown(b));
        }
        if b == c.negated() {
            return Ok(Bit::Unknown(a));
        }
        if a.code() < b.code() {
            self.gate(Cell::Majority(a.code(), b.code(), c.code()))
        } else {
            self.gate(Cell::Majority(b.code(), a.code(), c.code()))
        }
    }

    /// Whether at least two of three bits are true, where one is known.
    fn majority_known(&mut self, known: bool, b: Bit, c: Bit) -> Result<Bit, BlastFault>
        requires b { IsBit self.old b }
        requires c { IsBit self.old c }
        ensures { IfOk result (IsGate self.old self.new (λ v. majority known (bit_holds v b) (bit_holds v c))) }
    {
        if known { self.or(b, c) } else { self.and(b, c) }
    }

    /// Whether at least two of three bits are true.
    pub fn majority(&mut self, a: Bit, b: Bit, c: Bit) -> Result<Bit, BlastFault>
        requires a { IsBit self.old a }
        requires b { IsBit self.old b }
        requires c { IsBit self.old c }
        ensures { IfOk result (IsGate self.old self.new
            (λ v. majority (bit_holds v a) (bit_holds v b) (bit_holds v c))) }
    {
        match a {
            Bit::Known(value) => self.majority_known(value, b, c),
            Bit::Unknown(one) => match b {
                Bit::Known(value) => self.majority_known(value, a, c),
                Bit::Unknown(other) => match c {
                    Bit::Known(value) => self.majority_known(value, a, b),
                    Bit::Unknown(third) => self.majority_literals(one, other, third),
                },
            },
        }
    }

    /// The second literal's value where the first is true, and else the third's.
    fn choose_literals(&mut self, c: Lit, a: Lit, b: Lit) -> Result<Bit, BlastFault>
        requires c { c.variable < self.old.count + 1 }
        requires a { a.variable < self.old.count + 1 }
        requires b { b.variable < self.old.count + 1 }
        ensures { IfOk result (IsGate self.old self.new
            (λ v. cond (literal_holds v c) (literal_holds v a) (literal_holds v b))) }
    {
        if a == b {
            return Ok(Bit::Unknown(a));
        }
        if a == b.negated() {
            return self.xor_literals(c, b);
        }
        if c.is_positive() {
            self.gate(Cell::Choose(c.code(), a.code(), b.code()))
        } else {
            self.gate(Cell::Choose(c.negated().code(), b.code(), a.code()))
        }
    }

    /// The second bit's value where the first is true, and else the third's.
    pub fn choose(&mut self, c: Bit, a: Bit, b: Bit) -> Result<Bit, BlastFault>
        requires c { IsBit self.old c }
        requires a { IsBit self.old a }
        requires b { IsBit self.old b }
        ensures { IfOk result (IsGate self.old self.new (λ v. cond (bit_holds v c) (bit_holds v a) (bit_holds v b))) }
    {
        match c {
            Bit::Known(true) => Ok(a),
            Bit::Known(false) => Ok(b),
            Bit::Unknown(condition) => match a {
                Bit::Known(true) => self.or(c, b),
                Bit::Known(false) => self.and(c.negated(), b),
                Bit::Unknown(one) => match b {
                    Bit::Known(true) => self.or(c.negated(), a),
                    Bit::Known(false) => self.and(c, a),
                    Bit::Unknown(other) => self.choose_literals(condition, one, other),
                },
            },
        }
    }
}
