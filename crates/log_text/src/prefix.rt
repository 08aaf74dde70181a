ghost use Rattle.std.specs.Prelude.{◌≡◌, IfOk, Err, ◌==◌, if◌then◌else◌};
ghost use Rattle.regex.specs.Bytes.{matcher_pattern};
ghost use Rattle.regex.specs.Patterns.{find};
ghost use Rattle.log_text.specs.Stripping.{without};

use regex::Error as RegexError;
use regex::bytes::{Matcher, Regex};
use std::alloc::{AllocError, Global};
use thiserror::Error;

/// Why a text is no prefix.
#[derive(Clone, Copy, Debug, PartialEq, Eq, Drop, Error)]
pub enum PrefixFault {
    /// The grammar reads no pattern in the text, or it nests too deep.
    #[error("not a pattern")]
    BadPattern,
    /// Memory ran out; a pattern whose tables are too large counts so.
    #[error("out of memory")]
    Memory,
}

/// A pattern that is removed from the beginning of log lines.
#[derive(Drop)]
pub struct Prefix {
    regex: Regex,
}

impl Prefix {
    ghost use Rattle.log_text.specs.Patterns.{IsReadIn, IsBadPattern, prefix_pattern};

    /// The pattern that a text writes, in the syntax of the crate `regex`, over bytes.
    pub fn new(alloc: Global, pattern: &str) -> Result<Prefix, PrefixFault>
        ensures read { IfOk result (IsReadIn pattern.now) }
        ensures bad { result ≡ Err PrefixFault.BadPattern → IsBadPattern pattern.now }
    {
        match Regex::new(alloc, pattern) {
            Ok(regex) => Ok(Prefix { regex }),
            Err(RegexError::Syntax(_)) => Err(PrefixFault::BadPattern),
            Err(_) => Err(PrefixFault::Memory),
        }
    }

    /// What searches for this pattern.
    pub(crate) fn matcher(&self, alloc: Global) -> Result<Matcher<'_>, AllocError>
        ensures { IfOk result (λ m. matcher_pattern m ≡ prefix_pattern self.now) }
    {
        self.regex.matcher(alloc)
    }
}

/// A line without the pattern's first match, where that begins at its first byte.
pub(crate) fn without_prefix<'h>(
    matcher: &mut Matcher<'_>,
    drop_unmatched: bool,
    line: &'h [u8],
) -> &'h [u8]
    ensures rest { result.now ≡ without (find (matcher_pattern matcher.old) line.now 0) drop_unmatched line.now }
    ensures same { matcher_pattern matcher.new ≡ matcher_pattern matcher.old }
{
    match matcher.find(line) {
        Some(found) if found.start() == 0 => &line[found.end()..],
        _ if drop_unmatched => &line[line.len()..],
        _ => line,
    }
}
