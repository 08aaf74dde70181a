//! What is made of a statement.
ghost use Rattle.std.specs.Prelude.{◌≡◌, [], ◌∷◌, IfOk};
ghost use Rattle.core_tree.specs.declared.code.Code.TheVariants as core_code;
ghost use Rattle.core_codes.specs.Made.{joined};
ghost use Rattle.core_codes.specs.Parts.{alone, bare, or_nothing};

use code_forms::{Content, substatement};
use core_tree::{Code, LastingSetting};
use plain_data::{Items, Shared};
use std::alloc::{AllocError, Global};

/// The core of a statement or declaration, or of several: the codes of its items, in order; the values of the cases
/// that it gives to the `switch` whose block it is in; and what the initializers of the objects in it that live
/// throughout the run set before `main` is called (C99 6.2.4p3), in order.
#[derive(Drop)]
pub struct Made {
    pub codes: Items<Shared<Code>>,
    pub cases: Items<i128>,
    pub settings: Items<LastingSetting>,
}

/// What stands in the block that a statement is, as the body of a function, and what the initializers of the objects in
/// it that live throughout the run set.
#[derive(Drop)]
pub struct Body {
    pub content: Content,
    pub settings: Items<LastingSetting>,
}

/// The block that a substatement is, and what the initializers of the objects in it that live throughout the run set.
#[derive(Drop)]
pub(crate) struct SubBlock {
    pub code: Shared<Code>,
    pub settings: Items<LastingSetting>,
}

impl Made {
    /// Nothing so far. It takes no memory.
    pub(crate) fn nothing(alloc: Global) -> Made
        ensures { result ≡ record { codes = []; cases = []; settings = [] } }
    {
        Made {
            codes: Items::new(alloc),
            cases: Items::new(alloc),
            settings: Items::new(alloc),
        }
    }

    /// One item, that gives no case, and in which nothing is set. It fails for want of memory alone.
    pub(crate) fn one(alloc: Global, code: Shared<Code>) -> Result<Made, AllocError>
        ensures { IfOk result (λ y. y ≡ bare code) }
    {
        Made::with_settings(alloc, code, Items::new(alloc))
    }

    /// One item, that gives no case, with what is set in it. It fails for want of memory alone.
    pub(crate) fn with_settings(
        alloc: Global,
        code: Shared<Code>,
        settings: Items<LastingSetting>,
    ) -> Result<Made, AllocError>
        ensures { IfOk result (λ y. y ≡ alone code [] settings) }
    {
        Made::with_cases(alloc, code, Items::new(alloc), settings)
    }

    /// One item, with the cases that it gives, and what is set in it. It fails for want of memory alone.
    pub(crate) fn with_cases(
        alloc: Global,
        code: Shared<Code>,
        cases: Items<i128>,
        settings: Items<LastingSetting>,
    ) -> Result<Made, AllocError>
        ensures { IfOk result (λ y. y ≡ alone code cases settings) }
    {
        let mut codes = Items::new(alloc);
        codes.push(code)?;
        Ok(Made {
            codes,
            cases,
            settings,
        })
    }

    /// These, and others behind them. It fails for want of memory alone.
    pub(crate) fn followed(self, more: Made) -> Result<Made, AllocError>
        ensures { IfOk result (λ y. y ≡ joined self more) }
    {
        let Made {
            mut codes,
            mut cases,
            mut settings,
        } = self;
        codes.append(more.codes)?;
        cases.append(more.cases)?;
        settings.append(more.settings)?;
        Ok(Made {
            codes,
            cases,
            settings,
        })
    }

    /// What stands in the block that a statement is, which is a compound one or not.
    pub(crate) fn content(self, is_compound: bool) -> Body
        ensures { result ≡ record { content = record { is_compound = is_compound; items = self.codes; cases = self.cases }; settings = self.settings } }
    {
        let Made {
            codes,
            cases,
            settings,
        } = self;
        let content = Content {
            is_compound,
            items: codes,
            cases,
        };
        Body { content, settings }
    }
}

impl SubBlock {
    /// The block in which this stands. It fails for want of memory alone.
    pub(crate) fn around(alloc: Global, inside: Body) -> Result<SubBlock, AllocError>
        ensures { IfOk result (λ y. y ≡ record { code = core_code.Block inside.content.is_compound inside.content.items; settings = inside.settings }) }
    {
        let Body { content, settings } = inside;
        let code = substatement(alloc, content)?;
        Ok(SubBlock { code, settings })
    }
}

/// The first of these codes, which does nothing where there is none, and those behind it. It fails for want of memory
/// alone.
pub(crate) fn parted(
    alloc: Global,
    codes: Items<Shared<Code>>,
) -> Result<(Shared<Code>, Items<Shared<Code>>), AllocError>
    ensures { IfOk result (λ x. x.0 ∷ x.1 ≡ or_nothing codes) }
{
    let mut codes = codes;
    if codes.is_empty() {
        let first = Shared::new(alloc, Code::Nothing { is_node: false })?;
        return Ok((first, codes));
    }
    let first = codes.remove(0);
    Ok((first, codes))
}

/// A code, and others behind it. It fails for want of memory alone.
pub(crate) fn led(
    alloc: Global,
    first: Shared<Code>,
    codes: Items<Shared<Code>>,
) -> Result<Items<Shared<Code>>, AllocError>
    ensures { IfOk result (λ all. all ≡ first ∷ codes) }
{
    let mut all = Items::new(alloc);
    all.push(first)?;
    all.append(codes)?;
    Ok(all)
}

/// The values of a case and of those behind it. It fails for want of memory alone.
pub(crate) fn in_front(
    alloc: Global,
    value: i128,
    cases: Items<i128>,
) -> Result<Items<i128>, AllocError>
    ensures { IfOk result (λ all. all ≡ value ∷ cases) }
{
    let mut all = Items::new(alloc);
    all.push(value)?;
    all.append(cases)?;
    Ok(all)
}
