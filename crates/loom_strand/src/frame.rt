//! The frames of a thread.

use loom_lang::limits::LOCAL_LIMIT;
use std::marker::Model;

/// A frame that waits for the result of a call.
#[derive(Debug, Drop)]
pub(crate) struct Frame {
    pub(crate) func: u8,
    pub(crate) locals: [i64; LOCAL_LIMIT],
    pub(crate) site: u16,
}

impl Model for Frame {
    ghost use Rattle.loom_flow.specs.State as state;

    ghost Value = { state.Frame };

    ghost view = { λ f. record { func = f.func; locals = f.locals; site = f.site } };
}
