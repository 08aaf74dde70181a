//! How loosely operands bind (C99 6.5).
ghost use Rattle.std.specs.Prelude.{◌≡◌, ◌≤◌, pred};
ghost use Rattle.c_grammar.specs.Spelling.{rank_of as rank_spec};

use c_grammar::rank_of;
use c_language::BinaryOperator;

/// How loosely the right operand of a binary operator may bind: less than the operator, so operators of one rank
/// group to the left (C99 6.5.5 to 6.5.14).
pub fn right_rank(operator: BinaryOperator) -> u32
    ensures rank { result ≡ pred (rank_spec operator) }
    ensures known { result ≤ 16 }
{
    rank_of(operator) - 1
}
