//! Many short pieces by way of a page, and a fault behind the first page.

use loom_io::memory::MemSink;
use loom_io::page::{Page, put_page, put_paged};
use std::test::Fail;

// A page has room for 7,281 of them.
const PIECE: &[u8] = b"1:2 begin";

#[test]
fn puts_many_short_pieces(rt: HostRuntime) -> Result<(), Fail> {
    let mut sink = MemSink::make(rt.alloc(), 80000, 7)?;
    let mut page = Page::new();
    let mut text = Vec::new(rt.alloc());
    for _ in 0..8000 {
        put_paged(&mut sink, &mut page, PIECE)?;
        text.extend_from_slice(PIECE)?;
    }
    // The page holds the last 6,471 bytes.
    assert_eq!(rt; sink.taken.bytes().len(), 65529);
    put_page(&mut sink, &mut page)?;
    assert_eq!(rt; sink.taken.bytes(), text.as_slice());
    assert_eq!(rt; sink.calls, 9362 + 925);
    assert_eq!(rt; sink.faults, 0);
    Ok(())
}

#[test]
fn fails_in_the_second_page(rt: HostRuntime) -> Result<(), Fail> {
    let mut sink = MemSink::make(rt.alloc(), 140000, 7)?;
    sink.failing.0.push(9367)?;
    let mut page = Page::new();
    for i in 0..15000 {
        if put_paged(&mut sink, &mut page, PIECE).is_err() {
            assert_eq!(rt; i, 14562);
            break;
        }
    }
    assert_eq!(rt; sink.taken.bytes().len(), 65529 + 4 * 7);
    assert_eq!(rt; sink.calls, 9367);
    assert_eq!(rt; sink.faults, 1);
    // The page holds what it held.
    put_page(&mut sink, &mut page)?;
    assert_eq!(rt; sink.taken.bytes().len(), 65529 + 4 * 7 + 65529);
    Ok(())
}
