use format_match::{Constraint, Split, SplitList};
use plain_data::{Width, to_signed, wrap};
use printf_text::{Arg, Args};

/// An integer argument's bits, converted to a width.
fn converted(arg: &Arg, width: Width) -> Option<u64> {
    match arg {
        Arg::Word {
            bits,
            width: from,
            signed: true,
        } => Some(wrap(i128::from(as_signed(*bits, *from)), width)),
        Arg::Word { bits, .. } => Some(wrap(i128::from(*bits), width)),
        _ => None,
    }
}

/// A word's number in two's complement.
fn as_signed(bits: u64, width: Width) -> i64 {
    to_signed(wrap(i128::from(bits), width), width)
}

/// Whether an argument meets a constraint.
fn meets(constraint: &Constraint<'_>, arg: &Arg) -> bool {
    match (constraint, arg) {
        (Constraint::Equal { bits, width }, arg) => converted(arg, *width) == Some(*bits),
        (Constraint::Between { low, high }, arg) => match converted(arg, Width::W32) {
            Some(bits) => {
                let number = as_signed(bits, Width::W32);
                *low <= number && number <= *high
            }
            None => false,
        },
        (Constraint::Text { bytes, ended }, Arg::Text(text)) => {
            let text = text.as_slice();
            let bytes = bytes.as_slice();
            if *ended {
                text == bytes
            } else {
                text.starts_with(bytes)
            }
        }
        (Constraint::Null, Arg::Null) => true,
        (Constraint::Shown { word }, Arg::Shown(n)) => word == n,
        _ => false,
    }
}

/// Whether arguments meet all constraints, one for each.
fn meet_all(constraints: &[Constraint<'_>], args: &[Arg]) -> bool {
    constraints.len() == args.len() && constraints.iter().zip(args).all(|(c, a)| meets(c, a))
}

/// How many splits with this end the arguments meet.
pub fn met_count(splits: &SplitList<'_>, end: usize, args: &Args) -> usize {
    splits
        .as_slice()
        .iter()
        .filter(|s| is_met(s, end, args))
        .count()
}

fn is_met(split: &Split<'_>, end: usize, args: &Args) -> bool {
    split.end == end && meet_all(split.constraints.as_slice(), args.as_slice())
}
