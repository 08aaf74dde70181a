ghost use Rattle.std.specs.Prelude.{◌≡◌, ◌≤◌, not, ◌==◌, length};
ghost use Rattle.std.specs.List.{prefix_len};
ghost use Rattle.cert_text.specs.Lines as spec;

/// How many bytes stand before the first newline.
fn plain_len(bytes: &[u8]) -> usize
    ensures { result ≡ prefix_len (λ b. not (b == 10)) bytes.now }
{
    bytes.iter().take_while(|b| **b != b'\n').count()
}

/// The length of the first line, its newline included.
pub(crate) fn line_len(bytes: &[u8]) -> usize
    ensures value { result ≡ spec.line_len bytes.now }
    ensures within { result ≤ length bytes.now }
{
    let plain = plain_len(bytes);
    if plain < bytes.len() {
        plain + 1
    } else {
        plain
    }
}
