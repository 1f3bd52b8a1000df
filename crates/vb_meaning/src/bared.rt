//! Expressions without the parentheses of their own around them.
ghost use Rattle.std.specs.Prelude.{◌≡◌};
ghost use Rattle.std.specs.Option.{option_copied};
ghost use Rattle.vb_syntax.specs.declared.program.expression.Expression.{out-Expression};
ghost use Rattle.vb_meaning.specs.Expressions as spec;
ghost use Rattle.vb_meaning.specs.Parentheses.{parenthesized};

use vb_syntax::program::Expression;

/// How many parentheses of its own may stand around an expression, which no script exceeds.
const MOST_PARENTHESES: u32 = 200;

/// What stands in parentheses of its own, while so many more of them may be taken away.
fn parenthesized<'a>(more: u32, expression: &'a Expression) -> Option<&'a Expression>
    ensures { option_copied result ≡ parenthesized more (out-Expression expression.now) }
{
    match expression {
        Expression::Parenthesis(inside) if 0 < more => Some(inside.get()),
        _ => None,
    }
}

/// An expression without the parentheses of its own around it.
#[tactic(auto, using(crate::proofs::Parentheses::bare_on, crate::proofs::Parentheses::bare_end))]
pub fn bare<'a>(mut expression: &'a Expression) -> &'a Expression
    ensures { result.now ≡ spec.bare expression.entry.now }
{
    let mut more = MOST_PARENTHESES;
    while let Some(inside) = parenthesized(more, expression) {
        expression = inside;
        more -= 1;
    }
    expression
}
