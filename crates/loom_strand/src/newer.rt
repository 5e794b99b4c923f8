//! The versions that a thread has taken.
ghost use Rattle.std.specs.Prelude.{◌↔◌, IsTrue};
ghost use Rattle.loom_strand.specs.Strand.{IsOutrun};

use loom_version::version::Version;

/// How many versions a thread can take.
pub(crate) const VERSION_ROOM: usize = 129;

/// Whether the version is newer than the last one of these.
pub(crate) fn is_newer(versions: &[Version], version: &Version) -> bool
    ensures { IsTrue result ↔ IsOutrun versions.now version.now }
{
    match versions.last() {
        None => false,
        Some(own) => own.number() < version.number(),
    }
}
