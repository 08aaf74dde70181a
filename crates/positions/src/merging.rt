//! Two ascending lists made into one.
ghost use Rattle.std.specs.Prelude.{◌≡◌, ◌<◌, ◌≤◌, ◌||◌, ℕ, true, false, length, slice_index, IfOk, MatchOption};
ghost use Rattle.positions.specs.Sets.{has, ascends, left, IsNext, IsIndexOf};

use std::alloc::{AllocError, Global};

/// The least item that is left, and the indices of what is left behind it.
#[derive(Clone, Copy)]
struct Next {
    least: usize,
    i: usize,
    j: usize,
}

/// The least item of what is left of two lists from an index on each.
fn next_of(xs: &[usize], i: usize, ys: &[usize], j: usize) -> Option<Next>
    requires xs { ascends xs.now ≡ true }
    requires ys { ascends ys.now ≡ true }
    ensures { MatchOption result ((length xs.now ≤ i) × (length ys.now ≤ j)) (λ next. IsNext xs.now i ys.now j next.least next.i next.j) }
{
    if i < xs.len() {
        if j < ys.len() {
            return Some(lesser(xs, i, ys, j));
        }
        return Some(Next {
            least: xs[i],
            i: i + 1,
            j,
        });
    }
    if j < ys.len() {
        return Some(Next {
            least: ys[j],
            i,
            j: j + 1,
        });
    }
    None
}

/// The lesser of two items, and the indices behind it.
fn lesser(xs: &[usize], i: usize, ys: &[usize], j: usize) -> Next
    requires xs { ascends xs.now ≡ true }
    requires ys { ascends ys.now ≡ true }
    requires i { i < length xs.now }
    requires j { j < length ys.now }
    ensures { IsNext xs.now i ys.now j result.least result.i result.j }
{
    let x = xs[i];
    let y = ys[j];
    if x < y {
        return Next {
            least: x,
            i: i + 1,
            j,
        };
    }
    if y < x {
        return Next {
            least: y,
            i,
            j: j + 1,
        };
    }
    Next {
        least: x,
        i: i + 1,
        j: j + 1,
    }
}

/// How many of the items stand before a position, counted from behind.
pub fn index_of(xs: &[usize], position: usize) -> usize
    requires { ascends xs.now ≡ true }
    ensures { IsIndexOf xs.now position result }
{
    let mut index = xs.len();
    'back: while index > 0 {
        if xs[index - 1] < position {
            return index;
        }
        index -= 1;
    }
    index
}

/// Whether a position is the item at an index.
pub fn stands_at(xs: &[usize], index: usize, position: usize) -> bool
    ensures yes { result ≡ true → (index < length xs.now) × (slice_index xs.now index ≡ position) }
    ensures no { result ≡ false → index < length xs.now → slice_index xs.now index ≡ position → ⊥ }
{
    index < xs.len() && xs[index] == position
}

/// The items of both lists, each once. It fails for want of memory alone.
pub fn merged(alloc: Global, xs: &[usize], ys: &[usize]) -> Result<Vec<usize>, AllocError>
    requires xs { ascends xs.now ≡ true }
    requires ys { ascends ys.now ≡ true }
    ensures same { IfOk result (λ v. (y : ℕ) → has v.items y ≡ (has xs.now y || has ys.now y)) }
    ensures ordered { IfOk result (λ v. ascends v.items ≡ true) }
{
    let mut out = Vec::new(alloc);
    let mut i = 0;
    let mut j = 0;
    'merge: while let Some(next) = next_of(xs, i, ys, j) {
        out.push(next.least)?;
        i = next.i;
        j = next.j;
    }
    Ok(out)
}
