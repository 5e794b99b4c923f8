//! Laws of scripts, stated as the contracts of functions that do nothing.
ghost use Rattle.loom_script.specs.Laws.{HasNoRefusalWithoutStall, HasShortTexts};

/// A script of which no command waits for a stall isn't refused.
pub fn no_refusal_without_stall()
    ensures { HasNoRefusalWithoutStall }
{}

/// The text of a filter in a script has no more bytes than the script.
pub fn texts_are_short()
    ensures { HasShortTexts }
{}
