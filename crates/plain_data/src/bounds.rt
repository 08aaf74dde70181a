ghost use Rattle.std.specs.Prelude.{◌≡◌, ◌≤◌};

/// How far a run is followed: each number is in its range, by the type.
///
/// `turns` a loop may start in one entry, `depth` levels of calls (`main` has 1), `heap` bytes of one
/// heap request, `outside` bytes of a text from outside, `turns` of a library function (`texts`), and
/// `arguments` of `main`.
#[derive(Clone, Copy, PartialEq, Eq)]
pub struct Bounds {
    pub turns: u32,
    pub depth: u32,
    pub heap: u32,
    pub outside: u32,
    pub texts: u32,
    pub arguments: u32,
    ghost turns_in_range: { (1 ≤ turns) × (turns ≤ 64) },
    ghost depth_in_range: { (1 ≤ depth) × (depth ≤ 16) },
    ghost heap_in_range: { (1 ≤ heap) × (heap ≤ 4096) },
    ghost outside_in_range: { outside ≤ 256 },
    ghost texts_in_range: { (1 ≤ texts) × (texts ≤ 1024) },
    ghost arguments_in_range: { (1 ≤ arguments) × (arguments ≤ 8) },
}

impl Bounds {
    /// The bounds that hold where nothing else is asked for.
    pub fn standard() -> Bounds
        ensures turns { result.turns ≡ 8 }
        ensures depth { result.depth ≡ 8 }
        ensures heap { result.heap ≡ 256 }
        ensures outside { result.outside ≡ 64 }
        ensures texts { result.texts ≡ 32 }
        ensures arguments { result.arguments ≡ 2 }
    {
        Bounds {
            turns: 8,
            depth: 8,
            heap: 256,
            outside: 64,
            texts: 32,
            arguments: 2,
        }
    }
}
