ghost use Rattle.std.specs.Prelude.{◌≡◌, OnOk, OnErr};
ghost use Rattle.cnf_core.specs.Truth.{value_of, literal_holds, clause_holds, formula_holds};

use crate::formula::Formula;
use crate::lit::Lit;
use plain_data::Items;
use std::marker::Model;

/// A truth value for each variable, at the variable's number; a variable past the end is false.
pub struct Assignment {
    values: Items<bool>,
}

/// By hand, so that a call stands in place of all its parts wherever a value is let go.
impl Drop for Assignment {
    fn drop(self) {
        let Assignment { values } = self;
    }
}

impl Model for Assignment {
    ghost use Rattle.std.specs.Prelude.{List, Bool};

    ghost Value = { List Bool };

    ghost view = { λ a. a.values };
}

impl Assignment {
    /// The assignment that gives each variable the value at its number. The first value belongs to no variable.
    pub fn from_vec(values: Vec<bool>) -> Assignment
        ensures { result ≡ values.items }
    {
        Assignment {
            values: Items::from_vec(values),
        }
    }

    /// The variable's value.
    pub fn value(&self, variable: u32) -> bool
        ensures { result ≡ value_of self.now variable }
    {
        self.values.as_slice().get(variable as usize) == Some(&true)
    }

    /// Whether the literal is true.
    pub fn holds(&self, literal: Lit) -> bool
        ensures { result ≡ literal_holds (value_of self.now) literal }
    {
        self.value(literal.variable()) == literal.is_positive()
    }
}

fn satisfies_clause(clause: &[Lit], values: &Assignment) -> bool
    ensures { result ≡ clause_holds (value_of values.now) clause.now }
{
    clause.iter().any(|literal| values.holds(*literal))
}

/// Whether each clause has a true literal.
pub fn satisfies(formula: &Formula, values: &Assignment) -> bool
    ensures { result ≡ formula_holds (value_of values.now) formula.now }
{
    for index in 0..formula.len() {
        if !satisfies_clause(formula.clause(index), values) {
            return false;
        }
    }
    true
}
