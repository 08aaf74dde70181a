//! Where tokens stand, for lines that are told.
ghost use Rattle.std.specs.Prelude.{◌≡◌, ◌≤◌, ◌++◌, length, IfOk};
ghost use Rattle.sherlog.specs.Places as spec;

use c_language::Spot;
use c_lexer::locate;
use plain_data::Bytes;
use std::alloc::{AllocError, Global};

/// The greatest source, in bytes.
pub const MAX_SOURCE: usize = 8_388_608;

/// The offset from which on offsets are those of the prelude's text.
const FAR: u32 = 2_147_483_648;

/// The text of the library's functions that have a body here; offsets in it are told from 2^31 on.
#[tactic(auto, unfolding(crate::specs::Places::prelude_text))]
fn prelude_text() -> &'static [u8]
    ensures text { result.now ≡ spec.prelude_text }
    ensures short { length result.now ≤ MAX_SOURCE }
{
    b"unsigned long strlen(const char *s) { unsigned long n = 0; while (s[n]) n++; return n; }
int strcmp(const char *a, const char *b) { unsigned long i = 0; while (a[i] && a[i] == b[i]) i++; return (unsigned char)a[i] - (unsigned char)b[i]; }
int strncmp(const char *a, const char *b, unsigned long n) { unsigned long i = 0; while (i < n && a[i] && a[i] == b[i]) i++; if (i == n) return 0; return (unsigned char)a[i] - (unsigned char)b[i]; }
char *strchr(const char *s, int c) { while (*s != (char)c) { if (!*s) return 0; s++; } return (char *)s; }
char *strcpy(char *d, const char *s) { unsigned long i = 0; while ((d[i] = s[i])) i++; return d; }
char *strcat(char *d, const char *s) { unsigned long n = 0; unsigned long i = 0; while (d[n]) n++; while ((d[n + i] = s[i])) i++; return d; }
void *memset(void *d, int c, unsigned long n) { unsigned char *p = d; unsigned long i; for (i = 0; i < n; i++) p[i] = c; return d; }
void *memcpy(void *d, const void *s, unsigned long n) { unsigned char *p = d; const unsigned char *q = s; unsigned long i; for (i = 0; i < n; i++) p[i] = q[i]; return d; }
int atoi(const char *s) { int v = 0; int g = 1; while (*s == ' ' || (*s >= 9 && *s <= 13)) s++; if (*s == '-') { g = -1; s++; } else if (*s == '+') s++; while (*s >= '0' && *s <= '9') { v = v * 10 + g * (*s - '0'); s++; } return v; }
"
}

/// The place of a byte, or of the end for what stands behind it.
fn locate_within(alloc: Global, name: &str, bytes: &[u8], at: u32) -> Result<Spot, AllocError>
    requires { length bytes.now ≤ MAX_SOURCE }
    ensures { IfOk result (λ spot. spot ≡ spec.within name.now bytes.now at) }
{
    let end = bytes.len() as u32;
    match locate(alloc, name, bytes, at.min(end)) {
        Ok(spot) => Ok(spot),
        Err(_) => Err(AllocError),
    }
}

/// The place of the token with an offset, in a source of this name or in the prelude. It fails for want of memory
/// alone.
pub fn spot_at(alloc: Global, name: &str, source: &[u8], at: u32) -> Result<Spot, AllocError>
    requires { length source.now ≤ MAX_SOURCE }
    ensures { IfOk result (λ spot. spot ≡ spec.spot_at name.now source.now at) }
{
    if at < FAR {
        locate_within(alloc, name, source, at)
    } else {
        locate_within(alloc, "<prelude>", prelude_text(), at - FAR)
    }
}

/// Puts a place as `FILE:LINE:COL`.
pub fn put_spot(alloc: Global, line: &mut Bytes, spot: &Spot) -> Result<(), AllocError>
    ensures { IfOk result (λ _. line.new ≡ line.old ++ spec.spot_text spot.now) }
{
    let row = spot.line;
    let column = spot.column;
    let numbers = format!(in alloc; ":{row}:{column}")?;
    line.extend_from_slice(spot.file.as_slice())?;
    line.extend_from_slice(numbers.as_bytes())
}
