//! What lives throughout the run of a program: what the external declarations that are needed and the functions that
//! are reached declare and name (C99 6.2.4p3).

ghost use Rattle.std.specs.Prelude.{◌≡◌, ◌∷◌, [], IfOk, OnOk, unwrap_or};
ghost use Rattle.c_program_notes.specs.Needed as spec;

use crate::outers::OuterNotes;
use c_item_notes::{ItemNotes, LastingNote};
use c_language::Name;
use c_names::{Literal, Names, Word, is_needed};
use c_reach::{FunctionNotes, is_among};
use plain_data::{Bytes, Items, Shared};
use std::alloc::{AllocError, Global};
use std::marker::Model;

/// A string literal, or `__func__`, by its offset, with its bytes but the 0 behind them (C99 6.4.5p5).
#[derive(Drop)]
pub struct Text {
    pub at: u32,
    pub bytes: Bytes,
}

impl Model for Text {
    ghost use Rattle.c_means.specs.Programs.{Text as Spec};

    ghost Value = { Spec };

    ghost view = { λ x. record { at = x.at; bytes = x.bytes } };
}

/// The names of functions and objects with linkage, the objects, and the string literals, in the order of the source.
pub struct Needs {
    pub links: Items<Name>,
    pub lasting: Items<LastingNote>,
    pub texts: Items<Text>,
}

/// By hand, so that a call stands in place of all its parts wherever a value is let go.
impl Drop for Needs {
    fn drop(self) {
        let Needs {
            links,
            lasting,
            texts,
        } = self;
    }
}

fn no_needs(alloc: Global) -> Needs
    ensures { result ≡ spec.no_needs }
{
    Needs {
        links: Items::new(alloc),
        lasting: Items::new(alloc),
        texts: Items::new(alloc),
    }
}

fn lasting_copy(note: &LastingNote) -> Result<LastingNote, AllocError>
    ensures { IfOk result (λ copy. copy ≡ note.now) }
{
    Ok(LastingNote {
        at: note.at,
        entry: note.entry.clone()?,
        size: note.size,
        is_defined: note.is_defined,
    })
}

/// The bytes of a literal in a function of this name.
fn literal_bytes<'a>(name: &'a [u8], text: &'a Option<Bytes>) -> &'a [u8]
    ensures { result.now ≡ unwrap_or text.now name.now }
{
    match text {
        None => name,
        Some(bytes) => bytes.as_slice(),
    }
}

fn text_of(alloc: Global, name: &[u8], literal: &Literal) -> Result<Text, AllocError>
    ensures { IfOk result (λ x. x ≡ spec.text_of name.now literal.now) }
{
    let bytes = Bytes::from_slice(alloc, literal_bytes(name, &literal.text))?;
    Ok(Text {
        at: literal.at,
        bytes,
    })
}

impl Needs {
    fn add_links(&mut self, links: &[Name]) -> Result<(), AllocError>
        ensures { OnOk result (self.new ≡ spec.with_links links.now self.old) }
    {
        for name in links {
            self.links.push(name.clone()?)?;
        }
        Ok(())
    }

    fn add_lasting(&mut self, lasting: &[LastingNote]) -> Result<(), AllocError>
        ensures { OnOk result (self.new ≡ spec.with_lasting lasting.now self.old) }
    {
        for note in lasting {
            self.lasting.push(lasting_copy(note)?)?;
        }
        Ok(())
    }

    fn add_texts(
        &mut self,
        alloc: Global,
        name: &[u8],
        literals: &[Literal],
    ) -> Result<(), AllocError>
        ensures { OnOk result (self.new ≡ spec.with_texts name.now literals.now self.old) }
    {
        for literal in literals {
            self.texts.push(text_of(alloc, name, literal)?)?;
        }
        Ok(())
    }

    /// What an item declares, with the literals of a function of this name.
    fn add_item(
        &mut self,
        alloc: Global,
        item: &ItemNotes,
        name: &[u8],
        names: &Names,
    ) -> Result<(), AllocError>
        ensures { OnOk result (self.new ≡ spec.with_item item.now name.now names.now self.old) }
    {
        self.add_links(item.links.as_slice())?;
        self.add_lasting(item.lasting.as_slice())?;
        self.add_texts(alloc, name, names.literals.as_slice())
    }

    /// What a function that is reached names and declares.
    fn add_function(&mut self, alloc: Global, function: &FunctionNotes) -> Result<(), AllocError>
        ensures { OnOk result (self.new ≡ spec.with_function function.now self.old) }
    {
        let name = function.name.get().as_slice();
        self.links.push(function.name.clone()?)?;
        self.add_item(alloc, &function.body, name, &function.names)
    }
}

fn add_declared(
    alloc: Global,
    words: &[Word],
    outer: &OuterNotes,
    needs: &mut Needs,
) -> Result<(), AllocError>
    ensures { OnOk result (needs.new ≡ spec.and_declared words.now outer.now needs.old) }
{
    if is_needed(words, outer.names.get()) {
        return needs.add_item(alloc, &outer.item, &[], outer.names.get());
    }
    Ok(())
}

fn add_reached(
    alloc: Global,
    found: &[Shared<FunctionNotes>],
    function: &Option<Shared<FunctionNotes>>,
    needs: &mut Needs,
) -> Result<(), AllocError>
    ensures { OnOk result (needs.new ≡ spec.and_reached found.now function.now needs.old) }
{
    match function {
        None => Ok(()),
        Some(function) => {
            if is_among(function.get().at, found) {
                return needs.add_function(alloc, function.get());
            }
            Ok(())
        }
    }
}

fn add_outer(
    alloc: Global,
    words: &[Word],
    found: &[Shared<FunctionNotes>],
    outer: &OuterNotes,
    needs: &mut Needs,
) -> Result<(), AllocError>
    ensures { OnOk result (needs.new ≡ spec.and_outer words.now found.now outer.now needs.old) }
{
    add_declared(alloc, words, outer, needs)?;
    add_reached(alloc, found, &outer.function, needs)
}

/// What lives throughout the run of a program of these external declarations, of which these words are needed and these
/// functions are reached. It fails for want of memory alone.
pub fn needs_of(
    alloc: Global,
    words: &[Word],
    found: &[Shared<FunctionNotes>],
    outers: &[OuterNotes],
) -> Result<Needs, AllocError>
    ensures { IfOk result (λ x. x ≡ spec.all_needs words.now found.now outers.now spec.no_needs) }
{
    let mut needs = no_needs(alloc);
    for outer in outers {
        add_outer(alloc, words, found, outer, &mut needs)?;
    }
    Ok(needs)
}
