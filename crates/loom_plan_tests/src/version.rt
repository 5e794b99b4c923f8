//! Versions, and filters of small programs in them.
ghost use Rattle.std.specs.Prelude.{◌≡◌, [], ◌∷◌};

mod plans;

use loom_version::version::Version;
use std::test::Fail;

/// The version in which command 1 has installed its filter.
pub fn first_with_one() -> Version
    ensures active { result.active ≡ 1 ∷ [] }
    ensures number { result.number ≡ 1 }
{
    Version::first().with(1)
}

#[test]
fn installs_and_removes(rt: HostRuntime) -> Result<(), Fail> {
    let none = Version::first();
    assert_eq!(rt; none.number(), 0);
    assert!(rt; none.active().is_empty() && !none.has(1));
    let one = first_with_one();
    let two = one.with(64);
    assert_eq!(rt; two.number(), 2);
    assert_eq!(rt; two.active(), [1, 64].as_slice());
    assert!(rt; two.has(1) && two.has(64) && !two.has(0) && !two.has(2));
    let other = two.without(1);
    assert_eq!(rt; other.number(), 3);
    assert_eq!(rt; other.active(), [64].as_slice());
    assert!(rt; !other.has(1) && two.has(1));
    assert_eq!(rt; other.without(64).active().len(), 0);
    Ok(())
}
