use crate::{checking, lexing, solving, splits, texts, trees, words};
use anyhow::Result;
use std::alloc::Global;

/// What a row asks, and how it is answered.
#[derive(Clone, Copy)]
pub enum Row {
    /// An operation on words.
    Words,
    /// A format and arguments, in hexadecimal.
    Texts,
    /// A format, an end, a log and arguments, in hexadecimal.
    Splits,
    /// A format, and arguments on the line after it.
    Text,
    /// A format, and a log from the line after it on.
    Split,
    /// A formula and the steps of a refutation.
    Check,
    /// A formula, and questions about it.
    Solve,
    /// A source, with escapes: its tokens, or its fault and where that stands.
    Tokens,
    /// A source: the text of its tree, or its fault.
    Tree,
    /// A source: the text of its tree with the places of nodes.
    Placed,
    /// A source: the name of its fault.
    Fault,
}

impl Row {
    /// The rows of a table by its name.
    pub fn named(name: &str) -> Option<Row> {
        match name {
            "words" => Some(Row::Words),
            "texts" => Some(Row::Texts),
            "splits" => Some(Row::Splits),
            "text" => Some(Row::Text),
            "split" => Some(Row::Split),
            "check" => Some(Row::Check),
            "solve" => Some(Row::Solve),
            "tokens" => Some(Row::Tokens),
            "tree" => Some(Row::Tree),
            "placed" => Some(Row::Placed),
            "fault" => Some(Row::Fault),
            _ => None,
        }
    }

    /// The lines that answer a row.
    pub fn answer(self, alloc: Global, row: &str) -> Result<String> {
        match self {
            Row::Words => words::answer(alloc, row),
            Row::Texts => texts::answer(alloc, row),
            Row::Splits => splits::answer(alloc, row),
            Row::Text => texts::answer_plain(alloc, row),
            Row::Split => splits::answer_plain(alloc, row),
            Row::Check => checking::answer(alloc, row),
            Row::Solve => solving::answer(alloc, row),
            Row::Tokens => lexing::answer(alloc, row),
            Row::Tree => trees::answer(alloc, row),
            Row::Placed => trees::answer_placed(alloc, row),
            Row::Fault => trees::answer_fault(alloc, row),
        }
    }
}

/// Prints a table with its answers as they are now. The lines of a row begin with `>`, and their texts behind `> ` are
/// the row; its answer is the lines that follow. Other lines stand as they are where they are empty or begin with `#`.
pub fn answer_all(rt: &impl Print, alloc: Global, row: Row, text: &str) -> Result<()> {
    let mut asked = None;
    for line in text.lines() {
        if let Some(more) = line.strip_prefix('>') {
            println!(rt; "{line}")?;
            asked = Some(with_line(alloc, asked, more.strip_prefix(' ').unwrap_or(more))?);
        } else {
            answer_one(rt, alloc, row, asked)?;
            asked = None;
            if line.is_empty() || line.starts_with('#') {
                println!(rt; "{line}")?;
            }
        }
    }
    answer_one(rt, alloc, row, asked)
}

/// The lines so far and one more.
fn with_line(alloc: Global, lines: Option<String>, line: &str) -> Result<String> {
    match lines {
        Some(mut lines) => {
            lines.push('\n')?;
            lines.push_str(line)?;
            Ok(lines)
        }
        None => Ok(format!(in alloc; "{line}")?),
    }
}

/// Prints the answer to a row, where one stood.
fn answer_one(rt: &impl Print, alloc: Global, row: Row, asked: Option<String>) -> Result<()> {
    if let Some(asked) = asked {
        let answer = row.answer(alloc, asked.as_str())?;
        print!(rt; "{answer}")?;
    }
    Ok(())
}
