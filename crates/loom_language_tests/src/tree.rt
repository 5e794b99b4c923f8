//! Names.

use loom_tree::name::Name;
use std::test::Fail;

#[test]
fn copies_and_compares(rt: HostRuntime) -> Result<(), Fail> {
    let name = Name::copied(rt.alloc(), b"total")?;
    assert_eq!(rt; name.bytes(), "total".as_bytes());
    assert!(rt; name.is(&Name::copied(rt.alloc(), b"total")?));
    assert!(rt; !name.is(&Name::copied(rt.alloc(), b"fee")?));
    Ok(())
}
