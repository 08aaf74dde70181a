//! Worked texts, each with the fault that reading it gives.
ghost use Rattle.std.specs.Prelude.{◌≡◌, IfOk};

use crate::{CertFault, read_world, write_world};
use plain_data::Bytes;
use std::alloc::Global;
use std::test::Fail;

/// What is written of the world that is read: the bytes again.
fn rewritten(alloc: Global, bytes: &[u8]) -> Result<Bytes, CertFault>
    ensures { IfOk result (λ text. text ≡ bytes.now) }
{
    let world = read_world(alloc, bytes)?;
    write_world(alloc, &world)
}

static TEXTS: [(&str, Option<CertFault>); 30] = [
    ("sherlog world 1\nw 7 4294967291\nend\n", None),
    ("sherlog world 1\nend\n", None),
    (
        "sherlog world 1\nw 1 1\nw 4294967295 18446744073709551615\nb 0 255\nb 18446744073709551615 1\nend\n",
        None,
    ),
    ("sherlog world 1\nb 0 1\nb 1 1\nend\n", None),
    ("sherlog world 1\nw 7 0\nend\n", Some(CertFault::BadLine(2))),
    ("sherlog world 1\nw 0 7\nend\n", Some(CertFault::BadLine(2))),
    (
        "sherlog world 1\nw 4294967296 7\nend\n",
        Some(CertFault::BadLine(2)),
    ),
    (
        "sherlog world 1\nw 7 18446744073709551616\nend\n",
        Some(CertFault::BadLine(2)),
    ),
    ("sherlog world 1\nb 7 0\nend\n", Some(CertFault::BadLine(2))),
    (
        "sherlog world 1\nb 7 256\nend\n",
        Some(CertFault::BadLine(2)),
    ),
    (
        "sherlog world 1\nb 18446744073709551616 1\nend\n",
        Some(CertFault::BadLine(2)),
    ),
    (
        "sherlog world 1\nw 2 1\nw 1 1\nend\n",
        Some(CertFault::BadLine(3)),
    ),
    (
        "sherlog world 1\nw 2 1\nw 2 1\nend\n",
        Some(CertFault::BadLine(3)),
    ),
    (
        "sherlog world 1\nb 2 1\nb 2 1\nend\n",
        Some(CertFault::BadLine(3)),
    ),
    (
        "sherlog world 1\nb 2 1\nw 3 1\nend\n",
        Some(CertFault::BadLine(3)),
    ),
    (
        "sherlog world 1\nw 07 1\nend\n",
        Some(CertFault::BadLine(2)),
    ),
    (
        "sherlog world 1\nw 7  1\nend\n",
        Some(CertFault::BadLine(2)),
    ),
    (
        "sherlog world 1\nw 7 1 \nend\n",
        Some(CertFault::BadLine(2)),
    ),
    (
        "sherlog world 1\nw 7 +1\nend\n",
        Some(CertFault::BadLine(2)),
    ),
    ("sherlog world 1\nw 7\nend\n", Some(CertFault::BadLine(2))),
    ("sherlog world 1\n\nend\n", Some(CertFault::BadLine(2))),
    ("sherlog world 1\nend", Some(CertFault::BadLine(2))),
    ("sherlog world 1\nw 7 1\n", Some(CertFault::BadLine(3))),
    ("sherlog world 1\nend\nend\n", Some(CertFault::BadLine(3))),
    ("", Some(CertFault::BadLine(1))),
    ("sherlog world 1", Some(CertFault::BadLine(1))),
    ("sherlog world 01\nend\n", Some(CertFault::BadLine(1))),
    ("sherlog cert 1\nend\n", Some(CertFault::BadLine(1))),
    ("sherlog world 9\nend\n", Some(CertFault::WrongVersion)),
    ("sherlog world 0\n", Some(CertFault::WrongVersion)),
];

#[test]
fn texts(rt: HostRuntime) -> Result<(), Fail> {
    let alloc = rt.alloc();
    for (text, fault) in &TEXTS {
        match rewritten(alloc, text.as_bytes()) {
            Ok(same) => {
                assert_eq!(rt; *fault, None);
                assert_eq!(rt; same.as_slice(), text.as_bytes());
            }
            Err(found) => assert_eq!(rt; *fault, Some(found)),
        }
    }
    Ok(())
}
