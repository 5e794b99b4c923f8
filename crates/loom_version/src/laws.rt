//! Laws of versions, each the contract of a function that does nothing.
ghost use Rattle.loom_version.specs.Laws.{HasVersionBehindInstall, HasVersionBehindRemoval, HasOwnNames, HasNumbersBelow};

/// `Version::with` is what a journal says of the newest version behind `installed`.
pub fn version_behind_install()
    ensures { HasVersionBehindInstall }
{}

/// `Version::without` is what it says behind `removed`: installed filters have names of their own, and the one that leaves has the command's.
pub fn version_behind_removal()
    ensures { HasVersionBehindRemoval }
{}

/// Names stay their own behind both.
pub fn own_names()
    ensures { HasOwnNames }
{}

/// Installed filters stay those of earlier commands behind both.
pub fn numbers_below()
    ensures { HasNumbersBelow }
{}
