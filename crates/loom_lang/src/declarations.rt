//! What a file declares.

use loom_tree::item::{Funcs, Mutexes, Semas, Words};
use std::marker::Model;

/// The items of a file by their kinds, each in the order of the text. They may break the rules on names and the limits.
#[derive(Debug, Drop)]
pub struct Declarations {
    /// The words and arrays.
    pub words: Words,
    /// The mutexes.
    pub mutexes: Mutexes,
    /// The semaphores.
    pub semas: Semas,
    /// The functions.
    pub funcs: Funcs,
}

impl Model for Declarations {
    ghost use Rattle.loom_tree.specs.Code.{source_code};
    ghost use Rattle.loom_tree.specs.Tree.{Source, functions_of};

    ghost Value = { Source };

    ghost coded = { source_code };

    ghost view = { λ p. record { words = p.words; mutexes = p.mutexes; semas = p.semas; funcs = functions_of p.funcs } };
}
