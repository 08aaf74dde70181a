//! What a tree is made on: nodes that were made and aren't part of another one yet.
ghost use Rattle.std.specs.Prelude.{◌≡◌, ◌∷◌, ◌++◌, [], IfOk, OnOk, Some};
ghost use Rattle.c_prelude.specs.Benches.{parts};
ghost use Rattle.c_prelude.specs.Steps as spec;
ghost use Rattle.c_prelude.specs.declared.step.Step.TheVariants as step;

use crate::stack::Stack;
use c_language::{
    BinaryOperator, Declaration, Declarator, Expr, ForStart, InitDeclarator, Initializer,
    IntegerConstant, IntegerType, Name, Parameter, PostfixOperator, Qualifier, Specifier, Stmt,
    TypeName, TypeWord, UnaryOperator,
};
use plain_data::{Bytes, Items, Shared};
use std::alloc::{AllocError, Global};
use std::mem::replace;

/// Specifiers and parameters in order, expressions and statements with the last first, and the blocks that are open.
#[derive(Drop)]
pub(crate) struct Bench {
    pub(crate) alloc: Global,
    pub(crate) specifiers: Items<Shared<Specifier>>,
    pub(crate) parameters: Items<Shared<Parameter>>,
    pub(crate) exprs: Stack<Shared<Expr>>,
    pub(crate) stmts: Stack<Shared<Stmt>>,
    pub(crate) blocks: Stack<Items<Shared<Stmt>>>,
}

/// An offset of the prelude's text, which is none of a source.
pub(crate) fn far(at: u16) -> u32
    ensures { result ≡ spec.far at }
{
    (1 << 31) + u32::from(at)
}

fn letter_name(alloc: Global, letter: u8) -> Result<Name, AllocError>
    ensures { IfOk result (λ name. name ≡ letter ∷ []) }
{
    let mut bytes = Bytes::new(alloc);
    bytes.push(letter)?;
    Shared::new(alloc, bytes)
}

/// A declarator, behind a `*` or not.
pub(crate) fn pointed(
    alloc: Global,
    star: Option<u16>,
    inner: Declarator,
) -> Result<Declarator, AllocError>
    ensures { IfOk result (λ d. d ≡ spec.pointed star inner) }
{
    match star {
        Some(at) => {
            let inner = Shared::new(alloc, inner)?;
            Ok(Declarator::Pointer {
                at: far(at),
                qualifiers: Items::new(alloc),
                inner,
            })
        }
        None => Ok(inner),
    }
}

fn variable_declarator(
    alloc: Global,
    star: Option<u16>,
    at: u16,
    letter: u8,
) -> Result<Declarator, AllocError>
    ensures { IfOk result (λ d. d ≡ spec.variable star at letter) }
{
    let name = letter_name(alloc, letter)?;
    pointed(alloc, star, Declarator::Name { at: far(at), name })
}

impl Bench {
    /// A bench on which nothing stands.
    pub(crate) fn new(alloc: Global) -> Bench
        ensures { parts result ≡ spec.nothing }
    {
        Bench {
            alloc,
            specifiers: Items::new(alloc),
            parameters: Items::new(alloc),
            exprs: Stack::new(alloc),
            stmts: Stack::new(alloc),
            blocks: Stack::new(alloc),
        }
    }

    /// Takes the last expression. Where there is none, that counts as want of memory: no table has such a step.
    fn expr(&mut self) -> Result<Shared<Expr>, AllocError>
        ensures { IfOk result (λ x. parts self.old ≡ record (parts self.new) { exprs = x ∷ self.new.exprs }) }
    {
        match self.exprs.pop() {
            Some(expr) => Ok(expr),
            None => Err(AllocError),
        }
    }

    fn stmt(&mut self) -> Result<Shared<Stmt>, AllocError>
        ensures { IfOk result (λ x. parts self.old ≡ record (parts self.new) { stmts = x ∷ self.new.stmts }) }
    {
        match self.stmts.pop() {
            Some(stmt) => Ok(stmt),
            None => Err(AllocError),
        }
    }

    fn put_expr(&mut self, expr: Expr) -> Result<(), AllocError>
        ensures { OnOk result (parts self.new ≡ record (parts self.old) { exprs = expr ∷ self.old.exprs }) }
    {
        let expr = Shared::new(self.alloc, expr)?;
        self.exprs.push(expr)
    }

    fn put_stmt(&mut self, stmt: Stmt) -> Result<(), AllocError>
        ensures { OnOk result (parts self.new ≡ record (parts self.old) { stmts = stmt ∷ self.old.stmts }) }
    {
        let stmt = Shared::new(self.alloc, stmt)?;
        self.stmts.push(stmt)
    }

    fn put_specifier(&mut self, specifier: Specifier) -> Result<(), AllocError>
        ensures { OnOk result (parts self.new ≡ record (parts self.old) { specifiers = self.old.specifiers ++ specifier ∷ [] }) }
    {
        let specifier = Shared::new(self.alloc, specifier)?;
        self.specifiers.push(specifier)
    }

    /// Takes all specifiers.
    pub(crate) fn all_specifiers(&mut self) -> Items<Shared<Specifier>>
        ensures all { result ≡ self.old.specifiers }
        ensures none { parts self.new ≡ record (parts self.old) { specifiers = [] } }
    {
        replace(&mut self.specifiers, Items::new(self.alloc))
    }

    // ---- specifiers and parameters

    pub(crate) fn word(&mut self, at: u16, word: TypeWord) -> Result<(), AllocError>
        ensures { OnOk result (spec.taken (step.Word at word) (parts self.old) ≡ Some (parts self.new)) }
    {
        self.put_specifier(Specifier::Word { at: far(at), word })
    }

    pub(crate) fn constant(&mut self, at: u16) -> Result<(), AllocError>
        ensures { OnOk result (spec.taken (step.Const at) (parts self.old) ≡ Some (parts self.new)) }
    {
        self.put_specifier(Specifier::Qualifier {
            at: far(at),
            qualifier: Qualifier::Const,
        })
    }

    pub(crate) fn parameter(
        &mut self,
        star: Option<u16>,
        at: u16,
        letter: u8,
    ) -> Result<(), AllocError>
        ensures { OnOk result (spec.taken (step.Parameter star at letter) (parts self.old) ≡ Some (parts self.new)) }
    {
        let declarator = variable_declarator(self.alloc, star, at, letter)?;
        let declarator = Shared::new(self.alloc, declarator)?;
        let specifiers = self.all_specifiers();
        let parameter = Shared::new(
            self.alloc,
            Parameter {
                specifiers,
                declarator,
            },
        )?;
        self.parameters.push(parameter)
    }

    // ---- expressions

    pub(crate) fn integer(&mut self, at: u16, value: u8) -> Result<(), AllocError>
        ensures { OnOk result (spec.taken (step.Integer at value) (parts self.old) ≡ Some (parts self.new)) }
    {
        let constant = IntegerConstant {
            value: u64::from(value),
            integer_type: IntegerType::Int,
        };
        self.put_expr(Expr::Integer {
            at: far(at),
            constant,
        })
    }

    pub(crate) fn character(&mut self, at: u16, value: u8) -> Result<(), AllocError>
        ensures { OnOk result (spec.taken (step.Character at value) (parts self.old) ≡ Some (parts self.new)) }
    {
        self.put_expr(Expr::Character {
            at: far(at),
            value: i32::from(value),
        })
    }

    pub(crate) fn variable(&mut self, at: u16, letter: u8) -> Result<(), AllocError>
        ensures { OnOk result (spec.taken (step.Variable at letter) (parts self.old) ≡ Some (parts self.new)) }
    {
        let name = letter_name(self.alloc, letter)?;
        self.put_expr(Expr::Identifier { at: far(at), name })
    }

    pub(crate) fn group(&mut self, at: u16) -> Result<(), AllocError>
        ensures { OnOk result (spec.taken (step.Group at) (parts self.old) ≡ Some (parts self.new)) }
    {
        let inner = self.expr()?;
        self.put_expr(Expr::Parenthesized { at: far(at), inner })
    }

    pub(crate) fn subscript(&mut self, at: u16) -> Result<(), AllocError>
        ensures { OnOk result (spec.taken (step.Subscript at) (parts self.old) ≡ Some (parts self.new)) }
    {
        let index = self.expr()?;
        let array = self.expr()?;
        self.put_expr(Expr::Subscript {
            at: far(at),
            array,
            index,
        })
    }

    pub(crate) fn increment(&mut self, at: u16) -> Result<(), AllocError>
        ensures { OnOk result (spec.taken (step.Increment at) (parts self.old) ≡ Some (parts self.new)) }
    {
        let operand = self.expr()?;
        self.put_expr(Expr::Postfix {
            at: far(at),
            operator: PostfixOperator::Increment,
            operand,
        })
    }

    pub(crate) fn unary(&mut self, at: u16, operator: UnaryOperator) -> Result<(), AllocError>
        ensures { OnOk result (spec.taken (step.Unary at operator) (parts self.old) ≡ Some (parts self.new)) }
    {
        let operand = self.expr()?;
        self.put_expr(Expr::Unary {
            at: far(at),
            operator,
            operand,
        })
    }

    pub(crate) fn binary(&mut self, at: u16, operator: BinaryOperator) -> Result<(), AllocError>
        ensures { OnOk result (spec.taken (step.Binary at operator) (parts self.old) ≡ Some (parts self.new)) }
    {
        let right = self.expr()?;
        let left = self.expr()?;
        self.put_expr(Expr::Binary {
            at: far(at),
            operator,
            left,
            right,
        })
    }

    pub(crate) fn assign(&mut self, at: u16) -> Result<(), AllocError>
        ensures { OnOk result (spec.taken (step.Assign at) (parts self.old) ≡ Some (parts self.new)) }
    {
        let value = self.expr()?;
        let target = self.expr()?;
        self.put_expr(Expr::Assign {
            at: far(at),
            operator: None,
            target,
            value,
        })
    }

    pub(crate) fn cast(&mut self, at: u16, star: Option<u16>) -> Result<(), AllocError>
        ensures { OnOk result (spec.taken (step.Cast at star) (parts self.old) ≡ Some (parts self.new)) }
    {
        let declarator = pointed(self.alloc, star, Declarator::Omitted)?;
        let declarator = Shared::new(self.alloc, declarator)?;
        let operand = self.expr()?;
        let specifiers = self.all_specifiers();
        let type_name = Shared::new(
            self.alloc,
            TypeName {
                specifiers,
                declarator,
            },
        )?;
        self.put_expr(Expr::Cast {
            at: far(at),
            type_name,
            operand,
        })
    }

    // ---- statements

    fn declaration(
        &mut self,
        star: Option<u16>,
        at: u16,
        letter: u8,
        initializer: Option<Initializer>,
    ) -> Result<(), AllocError>
        ensures { OnOk result (spec.declared (parts self.old) star at letter initializer ≡ Some (parts self.new)) }
    {
        let declarator = variable_declarator(self.alloc, star, at, letter)?;
        let mut declarators = Items::new(self.alloc);
        declarators.push(InitDeclarator {
            declarator,
            assembler_name: Items::new(self.alloc),
            initializer,
        })?;
        let specifiers = self.all_specifiers();
        let declaration = Declaration {
            specifiers,
            declarators,
        };
        self.put_stmt(Stmt::Declared { declaration })
    }

    pub(crate) fn declared(
        &mut self,
        star: Option<u16>,
        at: u16,
        letter: u8,
        is_initialised: bool,
    ) -> Result<(), AllocError>
        ensures { OnOk result (spec.taken (step.Declared star at letter is_initialised) (parts self.old) ≡ Some (parts self.new)) }
    {
        if is_initialised {
            let value = self.expr()?;
            return self.declaration(star, at, letter, Some(Initializer::Value { value }));
        }
        self.declaration(star, at, letter, None)
    }

    pub(crate) fn value(&mut self, at: u16) -> Result<(), AllocError>
        ensures { OnOk result (spec.taken (step.Value at) (parts self.old) ≡ Some (parts self.new)) }
    {
        let value = self.expr()?;
        self.put_stmt(Stmt::Value {
            at: far(at),
            value: Some(value),
        })
    }

    pub(crate) fn return_value(&mut self, at: u16) -> Result<(), AllocError>
        ensures { OnOk result (spec.taken (step.Return at) (parts self.old) ≡ Some (parts self.new)) }
    {
        let value = self.expr()?;
        self.put_stmt(Stmt::Return {
            at: far(at),
            value: Some(value),
        })
    }

    pub(crate) fn while_loop(&mut self, at: u16) -> Result<(), AllocError>
        ensures { OnOk result (spec.taken (step.While at) (parts self.old) ≡ Some (parts self.new)) }
    {
        let condition = self.expr()?;
        let body = self.stmt()?;
        self.put_stmt(Stmt::While {
            at: far(at),
            condition,
            body,
        })
    }

    pub(crate) fn selection(&mut self, at: u16, has_else: bool) -> Result<(), AllocError>
        ensures { OnOk result (spec.taken (step.If at has_else) (parts self.old) ≡ Some (parts self.new)) }
    {
        let condition = self.expr()?;
        let last = self.stmt()?;
        if has_else {
            let positive = self.stmt()?;
            return self.put_stmt(Stmt::If {
                at: far(at),
                condition,
                positive,
                negative: Some(last),
            });
        }
        self.put_stmt(Stmt::If {
            at: far(at),
            condition,
            positive: last,
            negative: None,
        })
    }

    pub(crate) fn for_loop(&mut self, at: u16) -> Result<(), AllocError>
        ensures { OnOk result (spec.taken (step.For at) (parts self.old) ≡ Some (parts self.new)) }
    {
        let step = self.expr()?;
        let condition = self.expr()?;
        let first = self.expr()?;
        let body = self.stmt()?;
        self.put_stmt(Stmt::For {
            at: far(at),
            start: ForStart::Value { value: Some(first) },
            condition: Some(condition),
            step: Some(step),
            body,
        })
    }

    pub(crate) fn begin(&mut self) -> Result<(), AllocError>
        ensures { OnOk result (spec.taken step.Begin (parts self.old) ≡ Some (parts self.new)) }
    {
        self.blocks.push(Items::new(self.alloc))
    }

    pub(crate) fn next(&mut self) -> Result<(), AllocError>
        ensures { OnOk result (spec.taken step.Next (parts self.old) ≡ Some (parts self.new)) }
    {
        let stmt = self.stmt()?;
        match self.blocks.pop() {
            Some(mut block) => {
                block.push(stmt)?;
                self.blocks.push(block)
            }
            None => Err(AllocError),
        }
    }

    pub(crate) fn block(&mut self, at: u16) -> Result<(), AllocError>
        ensures { OnOk result (spec.taken (step.Block at) (parts self.old) ≡ Some (parts self.new)) }
    {
        match self.blocks.pop() {
            Some(items) => self.put_stmt(Stmt::Block { at: far(at), items }),
            None => Err(AllocError),
        }
    }
}
