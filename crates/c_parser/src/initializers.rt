//! Initializers (C99 6.7.8). One level is read by functions to which the reader of the level below is handed in, and
//! the recursion stands in one place.
ghost use Rattle.std.specs.Prelude.{◌≤◌, length, suc};
ghost use Rattle.c_grammar.specs.Reading.{rules};
ghost use Rattle.c_grammar.specs.UnitReading as spec;
ghost use Rattle.c_grammar.specs.UnitReading.{initializer_at};
ghost use Rattle.c_reading.specs.Cursor.{behind, source_of};
ghost use Rattle.c_reading.specs.Reads.{Reads};
ghost use Rattle.c_parser.specs.Inside.{ReachesInitializer};

use crate::designators::{designators, is_designated};
use crate::shared::expr;
use c_exprs::Trees;
use c_language::{Initializer, InitializerItem, Punctuator, Token};
use c_reading::{Cursor, ParseFault, Source};
use c_scope::FileNames;
use plain_data::{Items, Shared};
use std::alloc::Global;

/// What reads the parts of an initializer: the trees of at most a height, and a function for the initializers of at
/// most that height, which is handed the allocator, the tokens, the names of the file, the cursor and the height.
#[derive(Clone, Copy)]
pub struct Inside<'a, I> {
    pub trees: Trees<'a>,
    pub initializer: I,
}

/// Items of a braced list, and whether a comma follows the last.
#[derive(Drop)]
pub struct FoundItems {
    pub items: Items<Shared<InitializerItem>>,
    pub trailing: bool,
}

impl<
    'a,
    I: Fn(Global, &[Token], &FileNames, &mut Cursor, u32) -> Result<Initializer, ParseFault>,
> Inside<'a, I> {
    /// `initializer` (C99 6.7.8) that stands inside, by the function that is handed in.
    pub fn inner(&self, c: &mut Cursor) -> Result<Initializer, ParseFault>
        requires reaches { ReachesInitializer I.Fn self.now }
        ensures { Reads (λ x. x) self.now.trees.source c.old c.new result (initializer_at self.now.trees.height) }
    {
        (self.initializer)(
            self.trees.alloc,
            self.trees.source.tokens,
            self.trees.source.file,
            c,
            self.trees.height,
        )
    }

    /// `designator-list = initializer` (C99 6.7.8).
    #[tactic(auto, unfolding(c_grammar::specs::UnitReading::designated_item_at))]
    pub fn designated_item(&self, c: &mut Cursor) -> Result<InitializerItem, ParseFault>
        requires reaches { ReachesInitializer I.Fn self.now }
        requires small { self.now.trees.height ≤ 256 }
        ensures { Reads (λ x. x) self.now.trees.source c.old c.new result
            (spec.designated_item_at (rules self.now.trees.height) (initializer_at self.now.trees.height)) }
    {
        let designators = designators(&self.trees, c)?;
        self.trees.source.expect(c, Punctuator::Equal)?;
        let value = self.inner(c)?;
        Ok(InitializerItem {
            designators,
            value: Shared::new(self.trees.alloc, value)?,
        })
    }

    /// `initializer` (C99 6.7.8) in a list, without designators.
    #[tactic(auto, unfolding(c_grammar::specs::UnitReading::plain_item_at))]
    pub fn plain_item(&self, c: &mut Cursor) -> Result<InitializerItem, ParseFault>
        requires reaches { ReachesInitializer I.Fn self.now }
        ensures { Reads (λ x. x) self.now.trees.source c.old c.new result
            (spec.plain_item_at (initializer_at self.now.trees.height)) }
    {
        let value = self.inner(c)?;
        Ok(InitializerItem {
            designators: Items::new(self.trees.alloc),
            value: Shared::new(self.trees.alloc, value)?,
        })
    }

    /// `[ designator-list = ] initializer` (C99 6.7.8): an item of a braced list.
    pub fn item(&self, c: &mut Cursor) -> Result<InitializerItem, ParseFault>
        requires reaches { ReachesInitializer I.Fn self.now }
        requires small { self.now.trees.height ≤ 256 }
        ensures { Reads (λ x. x) self.now.trees.source c.old c.new result
            (spec.item_at (rules self.now.trees.height) (initializer_at self.now.trees.height)) }
    {
        if is_designated(&self.trees.source, c) {
            self.designated_item(c)
        } else {
            self.plain_item(c)
        }
    }

    /// `initializer-list: item { , item }` (C99 6.7.8), behind the first: these items, and those behind a comma.
    pub fn more_items(
        &self,
        c: &mut Cursor,
        first: Items<Shared<InitializerItem>>,
    ) -> Result<FoundItems, ParseFault>
        requires reaches { ReachesInitializer I.Fn self.now }
        requires small { self.now.trees.height ≤ 256 }
        ensures { Reads (λ f. (f.items, f.trailing)) self.now.trees.source c.old c.new result
            (λ s. behind first (spec.more_items_at (rules self.now.trees.height)
            (initializer_at self.now.trees.height) (suc (length s.0)) s)) }
    {
        let mut all = first;
        let mut left = self.trees.source.turns(c);
        'items: while left > 0 {
            left -= 1;
            if !self.trees.source.begins(c, Punctuator::Comma) {
                return Ok(FoundItems {
                    items: all,
                    trailing: false,
                });
            }
            self.trees.source.expect(c, Punctuator::Comma)?;
            if self.trees.source.begins(c, Punctuator::RightBrace) {
                return Ok(FoundItems {
                    items: all,
                    trailing: true,
                });
            }
            let found = self.item(c)?;
            all.push(Shared::new(self.trees.alloc, found)?)?;
        }
        Err(ParseFault::Syntax(c.position))
    }

    /// `[ initializer-list [ , ] ]` (C99 6.7.8): the items of a braced list, or none.
    #[tactic(auto, unfolding(c_grammar::specs::UnitReading::items_at))]
    pub fn items(&self, c: &mut Cursor) -> Result<FoundItems, ParseFault>
        requires reaches { ReachesInitializer I.Fn self.now }
        requires small { self.now.trees.height ≤ 256 }
        ensures { Reads (λ f. (f.items, f.trailing)) self.now.trees.source c.old c.new result
            (spec.items_at (rules self.now.trees.height) (initializer_at self.now.trees.height)) }
    {
        let mut all = Items::new(self.trees.alloc);
        if self.trees.source.begins(c, Punctuator::RightBrace) {
            return Ok(FoundItems {
                items: all,
                trailing: false,
            });
        }
        let first = self.item(c)?;
        all.push(Shared::new(self.trees.alloc, first)?)?;
        self.more_items(c, all)
    }

    /// `initializer: { [ initializer-list [ , ] ] }` (C99 6.7.8).
    #[tactic(auto, unfolding(c_grammar::specs::UnitReading::initializer_list_at))]
    pub fn list(&self, c: &mut Cursor) -> Result<Initializer, ParseFault>
        requires reaches { ReachesInitializer I.Fn self.now }
        requires small { self.now.trees.height ≤ 256 }
        ensures { Reads (λ x. x) self.now.trees.source c.old c.new result
            (spec.initializer_list_at (rules self.now.trees.height) (initializer_at self.now.trees.height)) }
    {
        let at = self.trees.source.expect(c, Punctuator::LeftBrace)?;
        let found = self.items(c)?;
        self.trees.source.expect(c, Punctuator::RightBrace)?;
        Ok(Initializer::List {
            at,
            items: found.items,
            trailing: found.trailing,
        })
    }

    /// `initializer: assignment-expression | { [ initializer-list [ , ] ] }` (C99 6.7.8), of at most the height above
    /// that of its parts.
    #[tactic(auto, unfolding(c_grammar::specs::UnitReading::initializer_by))]
    pub fn read(&self, c: &mut Cursor) -> Result<Initializer, ParseFault>
        requires reaches { ReachesInitializer I.Fn self.now }
        requires small { self.now.trees.height ≤ 256 }
        ensures { Reads (λ x. x) self.now.trees.source c.old c.new result
            (spec.initializer_by (rules self.now.trees.height) (initializer_at self.now.trees.height)) }
    {
        if self.trees.source.begins(c, Punctuator::LeftBrace) {
            return self.list(c);
        }
        let value = expr(&self.trees, c, 15)?;
        Ok(Initializer::Value { value })
    }
}

/// `initializer` (C99 6.7.8) of at most this height.
#[tactic(auto, unfolding(c_grammar::specs::UnitReading::initializer_at))]
pub fn initializer(
    alloc: Global,
    tokens: &[Token],
    file: &FileNames,
    c: &mut Cursor,
    height: u32,
) -> Result<Initializer, ParseFault>
    requires small { height ≤ 256 }
    ensures { Reads (λ x. x) (source_of tokens.entry file.entry) c.old c.new result (initializer_at height) }
{
    if height == 0 {
        return Err(ParseFault::TooDeep(c.position));
    }
    let inside = Inside {
        trees: Trees {
            alloc,
            source: Source { tokens, file },
            height: height - 1,
        },
        initializer,
    };
    inside.read(c)
}
