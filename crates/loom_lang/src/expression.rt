//! From bytes to an expression of the language.
ghost use Rattle.std.specs.Prelude.{◌≡◌, ◌≤◌, Err, length, IfOk};
ghost use Rattle.loom_tree.specs.Tree.{Expression, expression_of};
ghost use Rattle.loom_lang.specs.Limits.{file_limit};
ghost use Rattle.loom_lang.specs.Expression.{IsExpressionText};

use loom_expression::expression::{ExpressionError, read_expression};
use loom_lexer::text::tokenize;
use loom_tree::expression::Expr;
use loom_tree::name::NoMemory;
use std::alloc::Global;

/// Why bytes were not read as an expression.
#[derive(Clone, Copy, Debug, Drop, PartialEq, Eq)]
pub enum ExprError {
    /// They are no expression.
    Syntax,
    /// Memory ran out.
    NoMemory,
}

impl From<NoMemory> for ExprError {
    ghost use Rattle.std.specs.Prelude.{◌≡◌};
    ghost use Rattle.loom_lang.specs.declared.expression.ExprError.TheVariants.{NoMemory};

    ghost from_gives = { λ _ e. e ≡ NoMemory };

    fn from(_error: NoMemory) -> ExprError {
        ExprError::NoMemory
    }
}

/// The expression that the bytes are, with the white space and the comments of the language. `Syntax` comes exactly where they are none, and
/// memory didn't run out.
pub fn parse_expr(alloc: Global, bytes: &[u8]) -> Result<Expr, ExprError>
    requires { length bytes.now ≤ file_limit }
    ensures expression { IfOk result (λ e. IsExpressionText bytes.now (expression_of e)) }
    ensures refused { result ≡ Err ExprError.Syntax → (e : Expression) → IsExpressionText bytes.now e → ⊥ }
{
    let tokens = tokenize(alloc, bytes)?;
    match read_expression(alloc, bytes, &tokens.0) {
        Ok(e) => Ok(e),
        Err(ExpressionError::Syntax(_)) => Err(ExprError::Syntax),
        Err(ExpressionError::NoMemory) => Err(ExprError::NoMemory),
    }
}
