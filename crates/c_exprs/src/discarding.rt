//! Nodes that are let go where reading fails behind them. What the drop of a tree comes to is proved here once, and not
//! in each function that holds one.
use c_nodes::{FoundDeclarator, FoundExpr};

/// Lets an expression go.
pub fn discard_expr(_found: FoundExpr) {}

/// Lets a declarator go.
pub fn discard_declarator(_found: FoundDeclarator) {}
