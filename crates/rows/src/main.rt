//! Answers rows and sources in standard input, for comparison with tables and with outside tools. The first word says
//! which:
//!
//! - `words`, `texts`, `splits`, `table`, `tree`, `check`, `solve`, `solve_least`: those of `text_rows`;
//! - `types`, `layouts`: what declarations say (`type_rows`);
//! - `terms`, `sizes`, `chain`: terms by their clauses (`term_rows`);
//! - `ends`, `count`, `facts`, `lines`, `sites`, `values`, `clauses`, `observations`, `walks`, `nodes`: what is found
//!   of a program along a log (`table_rows`), with 8 turns and 8 levels where no words say how many.
#![tactic(auto)]

use anyhow::{Result, anyhow};
use std::env;

/// Answers what the first word asks for; what the others say is said with it.
fn run(rt: &HostRuntime, word: &str, second: Option<&str>, third: Option<&str>) -> Result<()> {
    match word {
        "types" | "layouts" => type_rows::answer(rt, word),
        "terms" | "sizes" | "chain" => term_rows::answer(rt, word, second.unwrap_or("")),
        "ends"
        | "count"
        | "facts"
        | "lines"
        | "sites"
        | "values"
        | "clauses"
        | "observations"
        | "walks"
        | "nodes" => { table_rows::answer(rt, word, second.unwrap_or("8"), third.unwrap_or("8")) }
        _ => text_rows::answer(rt, word, second.unwrap_or("")),
    }
}

fn main(rt: HostRuntime) -> Result<()> {
    let mut words = env::args(&rt)?.skip(1);
    let word = words.next().ok_or(anyhow!("no word"))?;
    let (second, third) = (words.next(), words.next());
    run(&rt, &word, second.as_deref(), third.as_deref())
}
