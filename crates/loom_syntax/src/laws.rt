//! Laws of the grammar.
ghost use Rattle.loom_syntax.specs.Laws.{HasOneTree};

/// Tokens are the file of at most one list of items.
pub fn one_tree()
    ensures { HasOneTree }
{}
