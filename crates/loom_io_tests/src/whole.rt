//! A text in a few pieces, and a fault at each of them.

use loom_io::memory::MemSink;
use loom_io::sink::SinkFailed;
use loom_io::whole::put_all;
use std::test::Fail;

const TEXT: &[u8] = b"finish done\n";

#[test]
fn puts_few_bytes_a_call(rt: HostRuntime) -> Result<(), Fail> {
    let mut sink = MemSink::make(rt.alloc(), 12, 5)?;
    put_all(&mut sink, TEXT)?;
    assert_eq!(rt; sink.taken.bytes(), TEXT);
    assert_eq!(rt; sink.calls, 3);
    assert_eq!(rt; sink.faults, 0);
    Ok(())
}

#[test]
fn fails_at_each_call(rt: HostRuntime) -> Result<(), Fail> {
    for (call, front) in [(1, 0), (2, 5), (3, 10)] {
        let mut sink = MemSink::make(rt.alloc(), 12, 5)?;
        sink.failing.0.push(call)?;
        assert_eq!(rt; put_all(&mut sink, TEXT), Err(SinkFailed));
        assert_eq!(rt; sink.taken.bytes(), &TEXT[..front], "at call {call}");
        assert_eq!(rt; sink.calls, call);
        assert_eq!(rt; sink.faults, 1);
    }
    Ok(())
}
