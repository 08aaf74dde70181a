//! All that is found of the names of a tree, of which some is for the trees around it alone.

ghost use Rattle.std.specs.Prelude.{◌≡◌, [], None, option_map};
ghost use Rattle.c_means.specs.Names as names;
ghost use Rattle.c_names.specs.Trees as trees;

use crate::offsets::Offsets;
use crate::stack::Stack;
use crate::words::{Binding, Literal, Word};
use c_language::Name;
use std::alloc::Global;
use std::marker::Model;
use std::mem::replace;

/// The name of a declarator, by its offset.
#[derive(Drop)]
pub struct NameAt {
    pub at: u32,
    pub name: Name,
}

/// The names that a tree uses and declares, the declarations that bind uses inside it, and its string literals; the
/// tags without a list, which declare themselves where nothing else is declared (C99 6.7.2.3p7); and of a declarator
/// its name, whether it derives a type, and what the parameters next to its name declare.
pub struct Found {
    pub uses: Stack<Word>,
    pub declares: Stack<Binding>,
    pub bound: Offsets,
    pub literals: Stack<Literal>,
    pub refers: Stack<Binding>,
    pub named: Option<NameAt>,
    pub is_derived: bool,
    pub parameters: Stack<Binding>,
}

/// By hand, so that a call stands in place of all its parts wherever a value is let go.
impl Drop for Found {
    fn drop(self) {
        let Found {
            uses,
            declares,
            bound,
            literals,
            refers,
            named,
            is_derived,
            parameters,
        } = self;
    }
}

impl Model for Found {
    ghost use Rattle.std.specs.Prelude.{option_map};
    ghost use Rattle.c_means.specs.Names.{Names as Spec};

    ghost Value = { Spec };

    ghost view = { λ f. record {
      uses = f.uses;
      declares = f.declares;
      bound = f.bound;
      literals = f.literals;
      refers = f.refers;
      named = option_map (λ n. (n.at, n.name)) f.named;
      is_derived = f.is_derived;
      parameters = f.parameters;
    } };
}

/// Nothing. It takes no memory.
pub(crate) fn nothing(alloc: Global) -> Found
    ensures { result ≡ names.none }
{
    Found {
        uses: Stack::new(alloc),
        declares: Stack::new(alloc),
        bound: Offsets::new(alloc),
        literals: Stack::new(alloc),
        refers: Stack::new(alloc),
        named: None,
        is_derived: false,
        parameters: Stack::new(alloc),
    }
}

/// Declarations alone. It takes no memory.
pub(crate) fn declared(alloc: Global, declares: Stack<Binding>) -> Found
    ensures { result ≡ record names.none { declares = declares } }
{
    let mut found = nothing(alloc);
    found.declares = declares;
    found
}

/// Takes a declarator's name out.
pub(crate) fn take_name(found: &mut Found) -> Option<NameAt>
    ensures name { option_map trees.pair result ≡ found.old.named }
    ensures rest { found.new ≡ record found.old { named = None } }
{
    found.named.take()
}

/// Takes out what parameters declare. It takes no memory.
pub(crate) fn take_parameters(alloc: Global, found: &mut Found) -> Stack<Binding>
    ensures parameters { result ≡ found.old.parameters }
    ensures rest { found.new ≡ record found.old { parameters = [] } }
{
    replace(&mut found.parameters, Stack::new(alloc))
}

/// Takes out what is declared. It takes no memory.
pub(crate) fn take_declares(alloc: Global, found: &mut Found) -> Stack<Binding>
    ensures declares { result ≡ found.old.declares }
    ensures rest { found.new ≡ record found.old { declares = [] } }
{
    replace(&mut found.declares, Stack::new(alloc))
}
