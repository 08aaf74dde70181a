//! Broken rules, one a line.

use crate::text::{put, put_next};
use c_types::{Fault, LayoutRule, Rule};
use plain_data::Bytes;
use std::alloc::AllocError;

fn rule_name(rule: Rule) -> &'static str {
    match rule {
        Rule::Undeclared => "Undeclared",
        Rule::TypeMismatch => "TypeMismatch",
        Rule::NotModifiable => "NotModifiable",
        Rule::FloatUsed => "FloatUsed",
        Rule::IndirectCall => "IndirectCall",
        Rule::StructByValue => "StructByValue",
        Rule::BitField => "BitField",
        Rule::Layout(LayoutRule::Incomplete) => "Incomplete",
        Rule::Layout(LayoutRule::ObjectTooLarge) => "ObjectTooLarge",
        Rule::Layout(LayoutRule::NotConstant) => "NotConstant",
        Rule::DuplicateDefinition => "DuplicateDefinition",
    }
}

/// Puts a line `fault AT RULE` for each broken rule at the end.
pub fn put_faults(faults: &[Fault], text: &mut Bytes) -> Result<(), AllocError> {
    for fault in faults {
        put(text, "fault")?;
        put_next(text, u64::from(fault.at))?;
        put(text, " ")?;
        put(text, rule_name(fault.rule))?;
        put(text, "\n")?;
    }
    Ok(())
}
