ghost use Rattle.std.specs.Prelude.{◌≡◌, IfOk};
ghost use Rattle.c_language.specs.Standing.{StandInOrder};
ghost use Rattle.c_language.specs.PlaceTables.{places_of, place_at, file_at, AreFound};

use crate::{Name, Place, Token, Tokens};
use plain_data::Items;
use std::alloc::{AllocError, Global};
use std::collections::BTreeMap;
use std::marker::Model;

/// The places of a source's tokens, by the byte offsets of their starts, and the names of its files.
#[derive(Drop)]
pub struct Places {
    table: BTreeMap<u32, Place>,
    files: Items<Name>,
}

impl Model for Places {
    ghost use Rattle.c_language.specs.PlaceTables.{PlaceTable};

    ghost Value = { PlaceTable };

    ghost view = { λ p. record { places = p.table.entries; files = p.files } };
}

const NOWHERE: Place = Place {
    file: 0,
    line: 0,
    column: 0,
};

fn table_of(alloc: Global, tokens: &[Token]) -> Result<BTreeMap<u32, Place>, AllocError>
    ensures { IfOk result (λ table. table.entries ≡ places_of tokens.now) }
{
    let mut table = BTreeMap::new(alloc);
    for token in tokens {
        table.insert(token.start, token.place)?;
    }
    Ok(table)
}

fn owners_of(alloc: Global, files: &[Name]) -> Result<Items<Name>, AllocError>
    ensures { IfOk result (λ owners. owners ≡ files.now) }
{
    let mut owners = Items::new(alloc);
    for file in files {
        owners.push(file.clone()?)?;
    }
    Ok(owners)
}

impl Places {
    /// The places of these tokens; where they stand one behind another, as `lex` answers them, each is found at its start.
    /// It fails for want of memory alone.
    pub fn of_tokens(alloc: Global, tokens: &Tokens) -> Result<Places, AllocError>
        ensures places { IfOk result (λ p. p.places ≡ places_of tokens.now.tokens) }
        ensures files { IfOk result (λ p. p.files ≡ tokens.now.files) }
        ensures found { IfOk result (λ p.
            (end : _) → StandInOrder 0 end tokens.now.tokens → AreFound p.places tokens.now.tokens
            ) }
    {
        let table = table_of(alloc, tokens.as_slice())?;
        let files = owners_of(alloc, tokens.files.as_slice())?;
        Ok(Places { table, files })
    }

    /// The place of the token at a byte offset; at an offset where none begins all its numbers are 0.
    pub fn place(&self, at: u32) -> Place
        ensures { result ≡ place_at self.now.places at }
    {
        self.table.get(&at).copied().unwrap_or(NOWHERE)
    }

    /// The name of the file with a number.
    pub fn file(&self, file: u32) -> &[u8]
        ensures { result.now ≡ file_at self.now.files file }
    {
        match self.files.get(file as usize) {
            Some(name) => name.get().as_slice(),
            None => &[],
        }
    }
}
