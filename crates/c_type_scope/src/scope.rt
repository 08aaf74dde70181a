//! The names in force (C99 6.2.1 to 6.2.4).

ghost use Rattle.std.specs.Prelude.{◌≡◌, reverse, IfOk, OnOk};
ghost use Rattle.std.specs.Option.{option_copied};
ghost use Rattle.c_language.specs.Scopes as spec;

use crate::copies::copied_tables;
use crate::names::Named;
use c_language::{Entry, Linked, Name, Tables, Tag};
use plain_data::{Items, Shared};
use std::alloc::{AllocError, Global};
use std::marker::Model;

/// What one block declares, or the file.
pub struct Block {
    entries: Named<Entry>,
    tags: Named<Tag>,
}

/// By hand, so that a call stands in place of all its parts wherever a value is let go.
impl Drop for Block {
    fn drop(self) {
        let Block { entries, tags } = self;
    }
}

impl Model for Block {
    ghost use Rattle.c_language.specs.Scopes as spec;

    ghost Value = { spec.Block };

    ghost view = { λ b. record { entries = b.entries; tags = b.tags } };
}

impl Block {
    /// A block that declares nothing so far.
    pub fn new(alloc: Global) -> Block
        ensures { result ≡ spec.no_names }
    {
        Block {
            entries: Named::new(alloc),
            tags: Named::new(alloc),
        }
    }

    /// The last declaration of an ordinary name in the block.
    pub fn entry(&self, name: &[u8]) -> Option<&Shared<Entry>>
        ensures { option_copied result ≡ spec.entry_in self.now name.now }
    {
        self.entries.get(name)
    }

    /// The ordinary names that the block declares, in order.
    pub fn entries(&self) -> &[Shared<Entry>]
        ensures { result.now ≡ self.now.entries }
    {
        self.entries.as_slice()
    }

    /// The last declaration of a tag in the block.
    pub fn tag(&self, name: &[u8]) -> Option<&Shared<Tag>>
        ensures { option_copied result ≡ spec.tag_in self.now name.now }
    {
        self.tags.get(name)
    }

    /// Declares an ordinary name. It fails for want of memory alone.
    pub fn add_entry(&mut self, entry: Shared<Entry>) -> Result<(), AllocError>
        ensures { OnOk result (self.new ≡ spec.with_entry entry self.old) }
    {
        self.entries.push(entry)
    }

    /// Declares a tag. It fails for want of memory alone.
    pub fn add_tag(&mut self, tag: Shared<Tag>) -> Result<(), AllocError>
        ensures { OnOk result (self.new ≡ spec.with_tag_entry tag self.old) }
    {
        self.tags.push(tag)
    }

    /// A block of the same declarations. It fails for want of memory alone.
    pub fn duplicate(&self, alloc: Global) -> Result<Block, AllocError>
        ensures { IfOk result (λ block. block ≡ self.now) }
    {
        Ok(Block {
            entries: self.entries.duplicate(alloc)?,
            tags: self.tags.duplicate(alloc)?,
        })
    }
}

#[tactic(auto, using(crate::proofs::ByBytes::reverse_snoc))]
fn entry_over<'a>(file: &'a Block, blocks: &'a [Block], name: &[u8]) -> Option<&'a Shared<Entry>>
    ensures { option_copied result ≡ spec.entry_over file.now (reverse blocks.now) name.now }
{
    match blocks.split_last() {
        Some((last, rest)) => match last.entry(name) {
            Some(entry) => Some(entry),
            None => entry_over(file, rest, name),
        },
        None => file.entry(name),
    }
}

#[tactic(auto, using(crate::proofs::ByBytes::reverse_snoc))]
fn tag_over<'a>(file: &'a Block, blocks: &'a [Block], name: &[u8]) -> Option<&'a Shared<Tag>>
    ensures { option_copied result ≡ spec.tag_over file.now (reverse blocks.now) name.now }
{
    match blocks.split_last() {
        Some((last, rest)) => match last.tag(name) {
            Some(tag) => Some(tag),
            None => tag_over(file, rest, name),
        },
        None => file.tag(name),
    }
}

#[tactic(auto, using(crate::proofs::ByBytes::reverse_snoc))]
fn innermost_of<'a>(file: &'a Block, blocks: &'a [Block]) -> &'a Block
    ensures { result.now ≡ spec.innermost_of file.now (reverse blocks.now) }
{
    match blocks.split_last() {
        Some((last, _)) => last,
        None => file,
    }
}

fn copied_blocks(alloc: Global, blocks: &[Block]) -> Result<Vec<Block>, AllocError>
    ensures { IfOk result (λ copy. copy.items ≡ blocks.now) }
{
    let mut copy = Vec::new(alloc);
    for block in blocks {
        copy.push(block.duplicate(alloc)?)?;
    }
    Ok(copy)
}

fn copied_name(name: &Option<Name>) -> Result<Option<Name>, AllocError>
    ensures { IfOk result (λ copy. copy ≡ name.now) }
{
    match name {
        Some(name) => Ok(Some(name.clone()?)),
        None => Ok(None),
    }
}

/// The names in force, and the tables of types, which stay when a block is left.
pub struct Scope {
    alloc: Global,
    file: Block,
    blocks: Vec<Block>,
    linked: Named<Linked>,
    function: Option<Name>,
    pub(crate) tables: Tables,
}

/// By hand, so that a call stands in place of all its parts wherever a value is let go.
impl Drop for Scope {
    fn drop(self) {
        let Scope {
            alloc,
            file,
            blocks,
            linked,
            function,
            tables,
        } = self;
    }
}

impl Model for Scope {
    ghost use Rattle.std.specs.Prelude.{reverse};
    ghost use Rattle.c_language.specs.Scopes as spec;

    ghost Value = { spec.Scope };

    ghost view = { λ s. record { file = s.file; blocks = reverse s.blocks.items; linked = s.linked; function = s.function; tables = s.tables } };
}

impl Scope {
    /// The file scope, with nothing declared. It takes no memory.
    pub fn new(alloc: Global) -> Scope
        ensures { result ≡ spec.empty }
    {
        Scope {
            alloc,
            file: Block::new(alloc),
            blocks: Vec::new(alloc),
            linked: Named::new(alloc),
            function: None,
            tables: Tables {
                aggregates: Items::new(alloc),
                enumerations: Items::new(alloc),
                signatures: Items::new(alloc),
            },
        }
    }

    /// The same names and tables, whose entries are shared. It fails for want of memory alone.
    pub fn duplicate(&self) -> Result<Scope, AllocError>
        ensures { IfOk result (λ copy. copy ≡ self.now) }
    {
        let alloc = self.alloc;
        Ok(Scope {
            alloc,
            file: self.file.duplicate(alloc)?,
            blocks: copied_blocks(alloc, &self.blocks)?,
            linked: self.linked.duplicate(alloc)?,
            function: copied_name(&self.function)?,
            tables: copied_tables(alloc, &self.tables)?,
        })
    }

    /// The structures and unions, enumerated types and signatures so far.
    pub fn tables(&self) -> &Tables
        ensures { result.now ≡ self.now.tables }
    {
        &self.tables
    }

    /// The declaration of an ordinary name that is in force.
    pub fn look_up(&self, name: &[u8]) -> Option<&Shared<Entry>>
        ensures { option_copied result ≡ spec.look_up self.now name.now }
    {
        entry_over(&self.file, &self.blocks, name)
    }

    /// Opens a block. It fails for want of memory alone.
    pub fn enter(&mut self) -> Result<(), AllocError>
        ensures { OnOk result (self.new ≡ spec.enter self.old) }
    {
        self.blocks.push(Block::new(self.alloc))?;
        Ok(())
    }

    /// Opens a block that declares something. It fails for want of memory alone.
    pub fn enter_with(&mut self, block: Block) -> Result<(), AllocError>
        ensures { OnOk result (self.new ≡ spec.enter_with block self.old) }
    {
        self.blocks.push(block)?;
        Ok(())
    }

    /// Leaves the innermost block, where one is open. It takes no memory.
    pub fn leave(&mut self)
        ensures { self.new ≡ spec.leave self.old }
    {
        let _ = self.blocks.pop();
    }

    /// Leaves the innermost block, and answers what it declares; where none is open, what the file declares. It fails for
    /// want of memory alone, and takes none where a block is open.
    pub fn leave_with(&mut self) -> Result<Block, AllocError>
        ensures block { IfOk result (λ block. block ≡ spec.innermost self.old) }
        ensures scope { OnOk result (self.new ≡ spec.leave self.old) }
    {
        match self.blocks.pop() {
            Some(block) => Ok(block),
            None => self.file.duplicate(self.alloc),
        }
    }

    /// Declares an ordinary name in the innermost block, or in the file where no block is open. It fails for want of memory
    /// alone.
    pub fn declare_entry(&mut self, entry: Shared<Entry>) -> Result<(), AllocError>
        ensures { OnOk result (self.new ≡ spec.with_innermost (spec.with_entry entry (spec.innermost self.old)) self.old) }
    {
        let count = self.blocks.len();
        if count == 0 {
            return self.file.add_entry(entry);
        }
        let block = &mut self.blocks[count - 1];
        block.add_entry(entry)?;
        Ok(())
    }

    /// Declares a tag in the innermost block, or in the file where no block is open. It fails for want of memory alone.
    pub fn declare_tag(&mut self, tag: Shared<Tag>) -> Result<(), AllocError>
        ensures { OnOk result (self.new ≡ spec.with_innermost (spec.with_tag_entry tag (spec.innermost self.old)) self.old) }
    {
        let count = self.blocks.len();
        if count == 0 {
            return self.file.add_tag(tag);
        }
        let block = &mut self.blocks[count - 1];
        block.add_tag(tag)?;
        Ok(())
    }

    /// What the file declares.
    pub fn file(&self) -> &Block
        ensures { result.now ≡ self.now.file }
    {
        &self.file
    }

    /// What each open block declares, the outermost first.
    pub fn blocks(&self) -> &[Block]
        ensures { self.now.blocks ≡ reverse result.now }
    {
        &self.blocks
    }

    /// Whether no block is open.
    pub fn in_file(&self) -> bool
        ensures { result ≡ spec.in_file self.now }
    {
        self.blocks.is_empty()
    }

    /// The tag that is in force.
    pub fn tag_of(&self, name: &[u8]) -> Option<&Shared<Tag>>
        ensures { option_copied result ≡ spec.tag_of self.now name.now }
    {
        tag_over(&self.file, &self.blocks, name)
    }

    /// The last declaration of an ordinary name in the innermost block, or in the file where no block is open.
    pub fn own_entry(&self, name: &[u8]) -> Option<&Shared<Entry>>
        ensures { option_copied result ≡ spec.own_entry self.now name.now }
    {
        innermost_of(&self.file, &self.blocks).entry(name)
    }

    /// The last declaration of an ordinary name in the file.
    pub fn file_entry(&self, name: &[u8]) -> Option<&Shared<Entry>>
        ensures { option_copied result ≡ spec.entry_in self.now.file name.now }
    {
        self.file.entry(name)
    }

    /// The last declaration of a tag in the innermost block, or in the file where no block is open.
    pub fn own_tag(&self, name: &[u8]) -> Option<&Shared<Tag>>
        ensures { option_copied result ≡ spec.own_tag self.now name.now }
    {
        innermost_of(&self.file, &self.blocks).tag(name)
    }

    /// The object or function with linkage of a name, where one was declared anywhere.
    pub fn linked_as(&self, name: &[u8]) -> Option<&Shared<Linked>>
        ensures { option_copied result ≡ spec.linked_as self.now name.now }
    {
        self.linked.get(name)
    }

    /// The objects and functions with linkage that were declared anywhere, in order.
    pub fn linked(&self) -> &[Shared<Linked>]
        ensures { result.now ≡ self.now.linked }
    {
        self.linked.as_slice()
    }

    /// Notes an object or function with linkage. It fails for want of memory alone.
    pub fn note_linked(&mut self, linked: Shared<Linked>) -> Result<(), AllocError>
        ensures { OnOk result (self.new ≡ spec.with_linked linked.at linked.name linked.linkage linked.is_defined self.old) }
    {
        self.linked.push(linked)
    }

    /// The name of the function whose body this is in.
    pub fn function(&self) -> &Option<Name>
        ensures { result.now ≡ self.now.function }
    {
        &self.function
    }

    /// Goes into the body of a function of this name, or out of any.
    pub fn set_function(&mut self, name: Option<Name>)
        ensures { self.new ≡ record self.old { function = name } }
    {
        self.function = name;
    }
}
