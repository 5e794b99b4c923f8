//! A longer run, in which a filter goes in and comes out while four threads are at work.

use crate::scripts::shelf_with;
use loom_io::memory::MemSink;
use loom_top::alone::loom_alone;
use std::test::Fail;

// Four tellers move sums between four accounts.
const BANK: &[u8] =
    b"shared a[4];\nshared n;\nmutex m;\nfn move(from, to, sum) {\nlock m;\na[from] = a[from] - sum;\na[to] = a[to] + sum;\nunlock m;\nn = n + 1;\n}\nfn teller(id) {\nlet i = 0;\nwhile (i < 20) {\nmove(i % 4, (i + id) % 4, i);\ni = i + 1;\n}\n}\nfn main() {\nlet i = 0;\nwhile (i < 4) {\na[i] = 200;\ni = i + 1;\n}\nlet t = spawn teller(1);\nlet u = spawn teller(2);\nlet v = spawn teller(3);\nteller(5);\njoin t;\njoin u;\njoin v;\nprint a[0] + a[1] + a[2] + a[3];\n}\n";

// The filter goes in once, and it goes in again behind its removal; and how often it goes in.
const SCRIPTS: [(&[u8], u32); 2] = [
    (b"at 60 install n {p.lm:9; p.lm:9}\nat 400 remove n\n", 1),
    (
        b"at 60 install n {p.lm:9; p.lm:9}\nat 200 remove n\nat 250 install n {p.lm:9; p.lm:9}\nat 450 remove n\n",
        2,
    ),
];

// What the lines of a text tell, as far as it is read.
#[derive(Drop)]
struct Seen {
    /// How many lines tell that the filter is in, and that it is out.
    installed: u32,
    removed: u32,
    /// How many threads are inside the region.
    inside: u32,
    /// How many were inside at once, at most.
    most: u32,
    /// How often a thread came in.
    enters: u32,
}

impl Seen {
    // Notes a line.
    fn note(&mut self, line: &[u8]) {
        if line.starts_with(b"installed 1 1 ") || line.starts_with(b"installed 3 3 ") {
            self.installed = self.installed.saturating_add(1);
        }
        if line.starts_with(b"removed 2 2 ") || line.starts_with(b"removed 4 4 ") {
            self.removed = self.removed.saturating_add(1);
        }
        if line.ends_with(b":9 enter 1 1") || line.ends_with(b":9 enter 3 1") {
            self.enters = self.enters.saturating_add(1);
            self.inside = self.inside.saturating_add(1);
            self.most = self.most.max(self.inside);
        }
        if line.ends_with(b":9 leave 1 1") || line.ends_with(b":9 leave 3 1") {
            self.inside = self.inside.saturating_sub(1);
        }
    }
}

// What the lines of the text tell.
fn seen_in(text: &[u8]) -> Seen {
    let mut seen = Seen {
        installed: 0,
        removed: 0,
        inside: 0,
        most: 0,
        enters: 0,
    };
    let mut start = 0;
    for i in 0..text.len() {
        if text[i] == b'\n' {
            if start <= i {
                seen.note(&text[start..i]);
            }
            start = i + 1;
        }
    }
    seen
}

// No sum is lost, one thread at a time is inside the region, and each that came in has left it.
#[test]
fn moves_sums_between_accounts(rt: HostRuntime) -> Result<(), Fail> {
    for (script, times) in &SCRIPTS {
        let mut shelf = shelf_with(rt.alloc(), b"p.lm", BANK, *script)?;
        let mut sink = MemSink::make(rt.alloc(), 65_536, 4096)?;
        let words = ["run", "p.lm", "s.txt"];
        let status = loom_alone(rt.alloc(), &words, &mut shelf, &mut sink);
        assert_eq!(rt; status, 0);
        let text = sink.taken.bytes();
        assert!(rt; text.starts_with(b"800\n---\n1:18 begin\n"));
        assert!(rt; text.ends_with(b"1:18 end\nfinish done\n"));
        let seen = seen_in(text);
        assert_eq!(rt; (seen.installed, seen.removed), (*times, *times));
        assert_eq!(rt; (seen.inside, seen.most), (0, 1));
        assert!(rt; seen.enters > 4);
    }
    Ok(())
}
