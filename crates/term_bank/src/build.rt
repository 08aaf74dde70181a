ghost use Rattle.std.specs.Prelude.{◌<◌, ◌^◌};
ghost use Rattle.plain_data.specs.Words.{bits};
ghost use Rattle.plain_data.specs.declared.width.Width.TheVariants.{W64};
ghost use Rattle.term_bank.specs.Terms.{IsTerm, Makes};
ghost use Rattle.term_bank.specs.declared.sort.Sort.TheVariants.{Truth, Word, Events, Numbers};
ghost use Rattle.term_bank.specs.declared.shape.Shape.TheVariants.{Flag, Constant, Parameter, Base, Entry, WorldWord};
ghost use Rattle.term_bank.specs.declared.shape.Shape.TheVariants.{Binary, Test, Convert, Not, Connect, Choose};
ghost use Rattle.term_bank.specs.declared.shape.Shape.TheVariants.{NoEvents, BranchEvent, CallEvent, PrintEvent};
ghost use Rattle.term_bank.specs.declared.shape.Shape.TheVariants.{EventsBehind, NoNumbers, NumberBehind};

use crate::bank::{Bank, BankFault};
use crate::shape::{Connective, Extension, Shape, WordOperator, WordTest};
use crate::sort::{Node, Sort};
use plain_data::{Side, Width};

// Terms by their parts' nodes.
impl Bank {
    /// A truth value.
    pub fn truth(&mut self, truth: bool) -> Result<Node, BankFault>
        ensures { Makes self.old self.new (Flag truth) result }
    {
        self.add(Shape::Flag(truth))
    }

    /// A constant word.
    pub fn word(&mut self, value: u64, width: Width) -> Result<Node, BankFault>
        requires { value < 2 ^ bits width }
        ensures { Makes self.old self.new (Constant value width) result }
    {
        self.add(Shape::Constant { bits: value, width })
    }

    /// The word of a parameter.
    pub fn parameter_word(&mut self, number: u32, width: Width) -> Result<Node, BankFault>
        ensures { Makes self.old self.new (Parameter number width) result }
    {
        self.add(Shape::Parameter { number, width })
    }

    /// The base of places.
    pub fn base(&mut self) -> Result<Node, BankFault>
        ensures { Makes self.old self.new Base result }
    {
        self.add(Shape::Base)
    }

    /// The memory that the entry finds.
    pub fn entry(&mut self) -> Result<Node, BankFault>
        ensures { Makes self.old self.new Entry result }
    {
        self.add(Shape::Entry)
    }

    /// The world's word at a place.
    pub fn world_word(&mut self, width: Width, place: Node) -> Result<Node, BankFault>
        requires { IsTerm self.old (Word W64) place }
        ensures { Makes self.old self.new (WorldWord width place.index) result }
    {
        self.add(Shape::WorldWord {
            width,
            place: place.index,
        })
    }

    /// An operator on two words.
    pub fn binary(
        &mut self,
        operator: WordOperator,
        width: Width,
        left: Node,
        right: Node,
    ) -> Result<Node, BankFault>
        requires left { IsTerm self.old (Word width) left }
        requires right { IsTerm self.old (Word width) right }
        ensures { Makes self.old self.new (Binary operator width left.index right.index) result }
    {
        self.add(Shape::Binary {
            operator,
            width,
            left: left.index,
            right: right.index,
        })
    }

    /// A test of two words.
    pub fn test(
        &mut self,
        test: WordTest,
        width: Width,
        left: Node,
        right: Node,
    ) -> Result<Node, BankFault>
        requires left { IsTerm self.old (Word width) left }
        requires right { IsTerm self.old (Word width) right }
        ensures { Makes self.old self.new (Test test width left.index right.index) result }
    {
        self.add(Shape::Test {
            test,
            width,
            left: left.index,
            right: right.index,
        })
    }

    /// A word in another width.
    pub fn convert(
        &mut self,
        extension: Extension,
        from: Width,
        to: Width,
        operand: Node,
    ) -> Result<Node, BankFault>
        requires { IsTerm self.old (Word from) operand }
        ensures { Makes self.old self.new (Convert extension from to operand.index) result }
    {
        self.add(Shape::Convert {
            extension,
            from,
            to,
            operand: operand.index,
        })
    }

    /// The other truth value.
    pub fn not(&mut self, operand: Node) -> Result<Node, BankFault>
        requires { IsTerm self.old Truth operand }
        ensures { Makes self.old self.new (Not operand.index) result }
    {
        self.add(Shape::Not(operand.index))
    }

    /// A connective of two truths.
    pub fn connect(
        &mut self,
        connective: Connective,
        left: Node,
        right: Node,
    ) -> Result<Node, BankFault>
        requires left { IsTerm self.old Truth left }
        requires right { IsTerm self.old Truth right }
        ensures { Makes self.old self.new (Connect connective left.index right.index) result }
    {
        self.add(Shape::Connect {
            connective,
            left: left.index,
            right: right.index,
        })
    }

    /// Of two nodes of one sort, the first where the condition is true.
    pub fn choose(
        &mut self,
        sort: Sort,
        condition: Node,
        yes: Node,
        no: Node,
    ) -> Result<Node, BankFault>
        requires condition { IsTerm self.old Truth condition }
        requires yes { IsTerm self.old sort yes }
        requires no { IsTerm self.old sort no }
        ensures { Makes self.old self.new (Choose sort condition.index yes.index no.index) result }
    {
        self.add(Shape::Choose {
            sort,
            condition: condition.index,
            yes: yes.index,
            no: no.index,
        })
    }

    /// Nothing happened.
    pub fn no_events(&mut self) -> Result<Node, BankFault>
        ensures { Makes self.old self.new NoEvents result }
    {
        self.add(Shape::NoEvents)
    }

    /// What happened, and behind it that the branch at a token takes a side, where so many bytes were printed before.
    pub fn branch_event(
        &mut self,
        events: Node,
        printed: u64,
        at: u32,
        side: Side,
    ) -> Result<Node, BankFault>
        requires { IsTerm self.old Events events }
        ensures { Makes self.old self.new (BranchEvent events.index printed at side) result }
    {
        self.add(Shape::BranchEvent {
            events: events.index,
            printed,
            at,
            side,
        })
    }

    /// What happened, and behind it that the call at a token begins, where so many bytes were printed before.
    pub fn call_event(&mut self, events: Node, printed: u64, at: u32) -> Result<Node, BankFault>
        requires { IsTerm self.old Events events }
        ensures { Makes self.old self.new (CallEvent events.index printed at) result }
    {
        self.add(Shape::CallEvent {
            events: events.index,
            printed,
            at,
        })
    }

    /// What happened, and behind it that the log call at a token prints so many bytes, where so many were printed
    /// before.
    pub fn print_event(
        &mut self,
        events: Node,
        printed: u64,
        at: u32,
        length: u64,
        seen: Node,
    ) -> Result<Node, BankFault>
        requires events { IsTerm self.old Events events }
        requires seen { IsTerm self.old Numbers seen }
        ensures { Makes self.old self.new (PrintEvent events.index printed at length seen.index) result }
    {
        self.add(Shape::PrintEvent {
            events: events.index,
            printed,
            at,
            length,
            seen: seen.index,
        })
    }

    /// What happened first, and behind it what happened second.
    pub fn events_behind(&mut self, first: Node, second: Node) -> Result<Node, BankFault>
        requires first { IsTerm self.old Events first }
        requires second { IsTerm self.old Events second }
        ensures { Makes self.old self.new (EventsBehind first.index second.index) result }
    {
        self.add(Shape::EventsBehind {
            first: first.index,
            second: second.index,
        })
    }

    /// No number.
    pub fn no_numbers(&mut self) -> Result<Node, BankFault>
        ensures { Makes self.old self.new NoNumbers result }
    {
        self.add(Shape::NoNumbers)
    }

    /// Numbers, and behind them the one that a word is, signed or not.
    pub fn number_behind(
        &mut self,
        numbers: Node,
        width: Width,
        is_signed: bool,
        word: Node,
    ) -> Result<Node, BankFault>
        requires numbers { IsTerm self.old Numbers numbers }
        requires word { IsTerm self.old (Word width) word }
        ensures { Makes self.old self.new (NumberBehind numbers.index width is_signed word.index) result }
    {
        self.add(Shape::NumberBehind {
            numbers: numbers.index,
            width,
            is_signed,
            word: word.index,
        })
    }
}
