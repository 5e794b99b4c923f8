//! Laws of canonical texts, stated as the contracts of functions that do nothing.
ghost use Rattle.loom_canonical.specs.Laws.{HasCanonicalExpression, HasCanonicalText};

/// The canonical text of an expression is a text of that expression.
pub fn canonical_expression_is_a_text()
    ensures { HasCanonicalExpression }
{}

/// The canonical text of a program is a text of that program, with the lines of that text.
pub fn canonical_text_is_a_text()
    ensures { HasCanonicalText }
{}
