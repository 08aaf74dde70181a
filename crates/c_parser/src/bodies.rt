//! Function bodies (C99 6.9.1).
ghost use Rattle.std.specs.Prelude.{◌≡◌, Some, IfOk};
ghost use Rattle.c_grammar.specs.UnitReading as spec;
ghost use Rattle.c_scope.specs.Local.{scope_of};
ghost use Rattle.c_reading.specs.Cursor.{state_of, Gives};
ghost use Rattle.c_reading.specs.Reads.{Reads};
ghost use Rattle.c_parser.specs.Bodies.{body_of, found_by, unread_by};

use crate::groups::{Extent, group};
use crate::statements::statement;
use c_language::{Body, Stmt, Token};
use c_reading::{Cursor, ParseFault, Source, front, is_at_end, most_height, rest, start_of};
use c_scope::{FileNames, Names};
use plain_data::Shared;
use std::alloc::{AllocError, Global};

/// A block as a body, where it is the whole of its brace group. It fails for want of memory alone.
fn found(alloc: Global, block: Stmt, is_whole: bool, at: u32) -> Result<Body, AllocError>
    ensures { IfOk result (λ body. body ≡ found_by is_whole block at) }
{
    if is_whole {
        let block = Shared::new(alloc, block)?;
        Ok(Body::Read { block })
    } else {
        drop(block);
        Ok(Body::Unread { at })
    }
}

/// The body where no block is read, unless memory ran out.
fn unread(fault: ParseFault, at: u32) -> Result<Body, ParseFault>
    ensures { result ≡ unread_by fault at }
{
    match fault {
        ParseFault::Memory => Err(ParseFault::Memory),
        ParseFault::Syntax(_) => Ok(Body::Unread { at }),
        ParseFault::TooDeep(_) => Ok(Body::Unread { at }),
    }
}

/// What comes next, up to the end of the tokens, as a block.
fn read_block(
    alloc: Global,
    group: &[Token],
    file: &FileNames,
    c: &mut Cursor,
    at: u32,
) -> Result<Body, ParseFault>
    ensures { Gives (λ body. body) result
        (Some (body_of at (spec.stmt_at 256 0 (state_of group.now file.now c.old)))) }
{
    match statement(alloc, group, file, c, most_height(), 0) {
        Ok(block) => Ok(found(alloc, block, is_at_end(group, c), at)?),
        Err(fault) => unread(fault, at),
    }
}

/// The whole of a brace group as a block, where it is one in which these names are in scope.
fn read_group(
    alloc: Global,
    group: &[Token],
    file: &FileNames,
    names: Names,
) -> Result<Body, ParseFault>
    ensures { Gives (λ body. body) result
        (Some (body_of (spec.start_of group.now) (spec.stmt_at 256 0 (group.now, scope_of file.now names)))) }
{
    let mut c = Cursor { position: 0, names };
    read_block(alloc, group, file, &mut c, start_of(group))
}

/// `function-definition: declaration-specifiers declarator compound-statement` (C99 6.9.1), behind the declarator: the
/// body, in which the function's parameters are in scope. What it declares isn't in scope behind it.
#[tactic(auto, unfolding(c_grammar::specs::UnitReading::body_at, crate::specs::Bodies::body_of))]
pub fn body(alloc: Global, source: &Source<'_>, c: &mut Cursor) -> Result<Body, ParseFault>
    ensures { Reads (λ body. body) source.now c.old c.new result spec.body_at }
{
    let rest = rest(source.tokens, c.position);
    match group(alloc, rest)? {
        Extent::Closed(end) => {
            let names = c.names.in_function()?;
            let body = read_group(alloc, front(rest, end), source.file, names)?;
            c.position += end;
            Ok(body)
        }
        Extent::Broken(end) => Err(ParseFault::Syntax(c.position.saturating_add(end))),
    }
}
