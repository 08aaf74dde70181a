//! Small sources and logs, written out, and command lines with their answers.
use crate::{Command, Job, WordsFault, make_log, make_source, read_words};
use std::alloc::Global;
use std::test::Fail;

static SOURCE: &str = "int ext(int);
int printf(const char *, ...);
int f1(int x) { int r = ext(x); if (r < 0) { printf(\"f1 low %d\\n\", r); return 1; } printf(\"f1 ok %d\\n\", r); return 0; }
int f2(int x) { int r = ext(x); if (r < 0) { printf(\"f2 low %d\\n\", r); return 1; } printf(\"f2 ok %d\\n\", r); return 0; }
int main(void) {
  int s = 0;
  s += f1(1);
  s += f2(2);
  return s;
}
";

#[test]
fn a_source_and_a_log(rt: HostRuntime) -> Result<(), Fail> {
    let alloc = rt.alloc();
    assert_eq!(rt; make_source(alloc, 2)?.as_slice(), SOURCE.as_bytes());
    let log = make_log(alloc, 4)?;
    assert_eq!(rt;
        log.as_slice(),
        b"f1 ok 1\nf2 ok 2\nf3 low -3\nf4 ok 4\n".as_slice()
    );
    Ok(())
}

/// What is read of a line, whose words have a bar between them.
fn read(alloc: Global, line: &str) -> Result<Result<Job, WordsFault>, Fail> {
    let mut words = Vec::new(alloc);
    for word in line.split('|') {
        words.push(String::from_str(alloc, word)?)?;
    }
    Ok(read_words(alloc, words.as_slice()))
}

/// Lines that are command lines, with their turns, depth and conflicts.
static JOBS: [(&str, (u32, u32, u32)); 24] = [
    ("diagnose|a.c|a.log", (8, 8, 20_000)),
    ("diagnose|a.c|a.log|--turns|64", (64, 8, 20_000)),
    ("diagnose|--turns=1|a.c|a.log", (1, 8, 20_000)),
    ("diagnose|a.c|--depth|16|a.log", (8, 16, 20_000)),
    ("diagnose|a.c|a.log|--depth=001", (8, 1, 20_000)),
    ("diagnose|a.c|a.log|--conflicts|200000", (8, 8, 200_000)),
    ("diagnose|a.c|a.log|--conflicts=1", (8, 8, 1)),
    ("diagnose|a.c|a.log|--by-line|--json", (8, 8, 20_000)),
    (
        "diagnose|a.c|a.log|--config|c.json|--cert|a.cert",
        (8, 8, 20_000),
    ),
    ("diagnose|a.c|a.log|--config=-c", (8, 8, 20_000)),
    ("diagnose|a.c|a.log|--config=a=b", (8, 8, 20_000)),
    ("diagnose|a.c|a.log|--config|-", (8, 8, 20_000)),
    ("diagnose|-|-", (8, 8, 20_000)),
    ("diagnose|--|--json|-x", (8, 8, 20_000)),
    ("diagnose|a.c|--|a.log", (8, 8, 20_000)),
    ("diagnose|a.c|--turns|9|--|--", (9, 8, 20_000)),
    ("check|a.c|a.log|a.cert", (8, 8, 20_000)),
    (
        "check|a.c|a.log|a.cert|--by-line|--turns=3|--depth=4|--config=c",
        (3, 4, 20_000),
    ),
    ("replay|a.c|w.txt|--turns=3", (3, 8, 20_000)),
    ("sites|a.c|--config=c", (8, 8, 20_000)),
    ("match|a.c|a.log|--config|c", (8, 8, 20_000)),
    ("self|1", (8, 8, 20_000)),
    ("self|200", (8, 8, 20_000)),
    ("self|--|3", (8, 8, 20_000)),
];

/// Lines that are none.
static NONE: [&str; 44] = [
    "",
    "help",
    "--help",
    "--version",
    "Diagnose|a.c|a.log",
    "diagnose",
    "diagnose|a.c",
    "diagnose|a.c|a.log|b",
    "diagnose||a.log",
    "diagnose|a.c|",
    "diagnose|a.c|a.log|--help",
    "diagnose|a.c|a.log|-h",
    "diagnose|a.c|a.log|-",
    "diagnose|a.c|a.log|--turns|65",
    "diagnose|a.c|a.log|--turns|0",
    "diagnose|a.c|a.log|--turns=",
    "diagnose|a.c|a.log|--turns|",
    "diagnose|a.c|a.log|--turns",
    "diagnose|a.c|a.log|--turns|+8",
    "diagnose|a.c|a.log|--turns|8x",
    "diagnose|a.c|a.log|--turns|-1",
    "diagnose|a.c|a.log|--turns|0000000008",
    "diagnose|a.c|a.log|--turns|8|--turns|8",
    "diagnose|a.c|a.log|--turns=8|--turns=8",
    "diagnose|a.c|a.log|--turns|--",
    "diagnose|a.c|a.log|--depth=17",
    "diagnose|a.c|a.log|--depth=0",
    "diagnose|a.c|a.log|--conflicts=200001",
    "diagnose|a.c|a.log|--conflicts=0",
    "diagnose|a.c|a.log|--config|-c",
    "diagnose|a.c|a.log|--config=",
    "diagnose|a.c|a.log|--json=1",
    "diagnose|a.c|a.log|--json=",
    "diagnose|a.c|a.log|--json|--json",
    "diagnose|a.c|a.log|--tur=8",
    "diagnose|a.c|a.log|--=8",
    "diagnose|a.c|a.log|-t|8",
    "diagnose|--|a.c|a.log|--json",
    "check|a.c|a.log",
    "check|a.c|a.log|a.cert|--json",
    "sites|a.c|--turns=8",
    "replay|a.c|w.txt|--conflicts=1",
    "self|0",
    "self|201",
];

#[test]
fn command_lines(rt: HostRuntime) -> Result<(), Fail> {
    let alloc = rt.alloc();
    for (line, numbers) in &JOBS {
        let job = read(alloc, line)??;
        assert_eq!(rt; (job.turns, job.depth, job.conflicts), *numbers);
    }
    for line in &NONE {
        match read(alloc, line)? {
            Ok(_) => assert!(rt; false),
            Err(fault) => assert_eq!(rt; fault, WordsFault::Usage),
        }
    }
    Ok(())
}

#[test]
fn what_is_asked_for(rt: HostRuntime) -> Result<(), Fail> {
    let alloc = rt.alloc();
    let job = read(alloc, "self|7")??;
    assert_eq!(rt; (job.command, job.count), (Command::SelfTest, Some(7)));
    let job = read(alloc, "check|a.c|a.log|--by-line|--config=c|--|-x")??;
    assert_eq!(rt;
        (job.command, job.by_line, job.json),
        (Command::Check, true, false)
    );
    assert_eq!(rt; job.places.get(2).map(|place| place.as_str()), Some("-x"));
    assert_eq!(rt; job.config.as_ref().map(|name| name.as_str()), Some("c"));
    assert!(rt; job.cert.is_none());
    Ok(())
}
