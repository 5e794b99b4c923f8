//! The locals of a function.

use loom_tree::name::Name;

/// A local, and the line on which it is declared: a parameter stands at that of the `fn`.
#[derive(Debug, Drop)]
pub struct Local {
    /// Its name.
    pub name: Name,
    /// Its line, from 1.
    pub line: u32,
}
