//! Syntax trees as text, one external declaration a line.
//!
//! Every node is a word and its parts in parentheses, divided by single spaces. Parts stand in the order of the tree's
//! fields, and what may be absent, in brackets here, is left out.
//!
//! ```text
//! external    = (function SPECIFIERS DECLARATOR BODY) | DECLARATION | (empty)
//! body        = (block STMT..) | (unread)
//! declaration = (declaration SPECIFIERS DECLARED..)
//! declared    = (declared DECLARATOR [(asm LITERAL..)] [(initializer INITIALIZER)])
//! initializer = EXPR | (list ITEM.. [trailing])
//! item        = INITIALIZER | (designated DESIGNATOR.. INITIALIZER)
//! designator  = (dot NAME) | (element EXPR)
//! specifiers  = (specifiers SPECIFIER..)
//! specifier   = const | static | inline | int | .. | (typedef-name NAME) | (struct NAME) | (union NAME) | (enum NAME)
//!             | (struct [NAME] (members MEMBER..)) | (union [NAME] (members MEMBER..))
//!             | (enum [NAME] (enumerators ENUMERATOR..) [trailing])
//! member      = (fields SPECIFIERS FIELD..)
//! field       = DECLARATOR | (bits [DECLARATOR] EXPR)
//! enumerator  = (enumerator NAME [EXPR])
//! declarator  = (name NAME) | omitted | (grouped DECLARATOR) | (pointer QUALIFIER.. DECLARATOR)
//!             | (array DECLARATOR WORD.. [EXPR]) | (function DECLARATOR (parameters PARAMETER.. [...]))
//! parameter   = (parameter SPECIFIERS DECLARATOR)
//! type        = (type SPECIFIERS DECLARATOR)
//! stmt        = (block STMT..) | DECLARATION | (expression [EXPR]) | (label NAME STMT) | (case EXPR STMT)
//!             | (default STMT)
//!             | (if EXPR STMT [STMT]) | (switch EXPR STMT) | (while EXPR STMT) | (do STMT EXPR)
//!             | (for START CONDITION STEP STMT) | (goto NAME) | (continue) | (break) | (return [EXPR])
//! start       = DECLARATION | EXPR | none
//! condition   = EXPR | none
//! step        = EXPR | none
//! expr        = (integer NUMBER [TYPE]) | (floating) | (character NUMBER) | (string LITERAL..) | (function-name)
//!             | (identifier NAME) | (parenthesized EXPR) | (subscript EXPR EXPR) | (call EXPR EXPR..)
//!             | (member EXPR NAME) | (arrow EXPR NAME) | (postfix OPERATOR EXPR) | (unary OPERATOR EXPR)
//!             | (sizeof EXPR) | (sizeof-type TYPE) | (cast TYPE EXPR) | (binary OPERATOR EXPR EXPR)
//!             | (conditional EXPR EXPR EXPR) | (assign [OPERATOR] EXPR EXPR) | (comma EXPR EXPR)
//! ```
//!
//! - Operators are spelled as in C, and so are the words of types, qualifiers and storage classes; the operator of a
//!   compound assignment stands without its `=`.
//! - Names are their bytes as they stand. A literal stands in quotes, where each byte that isn't printable, the quote
//!   and the backslash are `\xHH` with two lowercase hexadecimal digits.
//! - The type of an integer constant, where it isn't `int`, is `unsigned`, `long`, `unsigned-long`, `long-long` or
//!   `unsigned-long-long`.
//! - A declarator nests as it is written: `*f(void)` is `(pointer (function (name f) (parameters ..)))`.
//! - `trailing` stands for a comma before the closing brace, and `...` for a variadic function.
//!
//! A text with places has `@N` behind the first word of each node that has an offset, and behind each tag, where N is
//! that offset in bytes: the specifier of `struct S x;` is `(struct@0 S@7)`.
#![tactic(auto)]

mod expr;
mod spelling;
mod text;
mod unit;

pub use unit::{placed_text, unit_text};
