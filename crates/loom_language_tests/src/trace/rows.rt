//! Entries, each with its line.

use loom_trace::entry::{Entry, What};

pub struct Row {
    pub entry: Entry,
    pub text: &'static [u8],
}

/// What a thread does by itself. A spawn is tested apart, with its arguments.
pub const ACTS: [Row; 13] = [
    Row {
        entry: Entry::Begin {
            thread: 3,
            line: 65_537,
        },
        text: b"3:65537 begin",
    },
    Row {
        entry: Entry::End {
            thread: 3,
            line: 65_537,
        },
        text: b"3:65537 end",
    },
    Row {
        entry: Entry::Trap {
            thread: 3,
            line: 65_537,
            reason: 7,
        },
        text: b"3:65537 trap 7",
    },
    Row {
        entry: Entry::Read {
            thread: 3,
            line: 65_537,
            word: 1023,
            value: i64::MIN,
        },
        text: b"3:65537 read 1023 -9223372036854775808",
    },
    Row {
        entry: Entry::Write {
            thread: 3,
            line: 65_537,
            word: 0,
            value: -10,
        },
        text: b"3:65537 write 0 -10",
    },
    Row {
        entry: Entry::Lock {
            thread: 3,
            line: 65_537,
            m: 63,
        },
        text: b"3:65537 lock 63",
    },
    Row {
        entry: Entry::Unlock {
            thread: 3,
            line: 65_537,
            m: 0,
        },
        text: b"3:65537 unlock 0",
    },
    Row {
        entry: Entry::Down {
            thread: 3,
            line: 65_537,
            s: 10,
        },
        text: b"3:65537 down 10",
    },
    Row {
        entry: Entry::Up {
            thread: 3,
            line: 65_537,
            s: 11,
        },
        text: b"3:65537 up 11",
    },
    Row {
        entry: Entry::Join {
            thread: 3,
            line: 65_537,
            child: 4,
        },
        text: b"3:65537 join 4",
    },
    Row {
        entry: Entry::Print {
            thread: 3,
            line: 65_537,
            value: 9223372036854775807,
        },
        text: b"3:65537 print 9223372036854775807",
    },
    Row {
        entry: Entry::Tick {
            thread: 3,
            line: 65_537,
            place: 8320,
        },
        text: b"3:65537 tick 8320",
    },
    Row {
        entry: Entry::Back {
            thread: 3,
            line: 65_537,
        },
        text: b"3:65537 back",
    },
];

/// What filters make a thread do. Lists of events are tested apart.
pub const OPERATIONS: [Row; 10] = [
    Row {
        entry: Entry::Blocked {
            thread: 8,
            line: 0,
            what: What::Lock(5),
        },
        text: b"8:0 blocked lock 5",
    },
    Row {
        entry: Entry::Blocked {
            thread: 8,
            line: 0,
            what: What::Down(6),
        },
        text: b"8:0 blocked down 6",
    },
    Row {
        entry: Entry::Blocked {
            thread: 8,
            line: 0,
            what: What::Join(7),
        },
        text: b"8:0 blocked join 7",
    },
    Row {
        entry: Entry::Blocked {
            thread: 8,
            line: 0,
            what: What::Enter(64, 8),
        },
        text: b"8:0 blocked enter 64 8",
    },
    Row {
        entry: Entry::Blocked {
            thread: 8,
            line: 0,
            what: What::Wait(63, 32),
        },
        text: b"8:0 blocked wait 63 32",
    },
    Row {
        entry: Entry::Enter {
            thread: 8,
            line: 0,
            k: 64,
            clause: 8,
        },
        text: b"8:0 enter 64 8",
    },
    Row {
        entry: Entry::Leave {
            thread: 8,
            line: 0,
            k: 63,
            clause: 7,
        },
        text: b"8:0 leave 63 7",
    },
    Row {
        entry: Entry::Post {
            thread: 8,
            line: 0,
            k: 62,
            event: 31,
        },
        text: b"8:0 post 62 31",
    },
    Row {
        entry: Entry::Wait {
            thread: 8,
            line: 0,
            k: 61,
            event: 30,
        },
        text: b"8:0 wait 61 30",
    },
    Row {
        entry: Entry::Cross {
            thread: 8,
            line: 0,
            place: 7,
            version: 128,
            passed: 1000,
        },
        text: b"8:0 cross 7 128 1000",
    },
];
