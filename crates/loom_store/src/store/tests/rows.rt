//! Requests of threads and their answers, row by row.

use crate::answer::Answer;
use loom_trace::entry::What;
use loom_trace::request::Request;

/// A thread, what it asks for, and its answer.
pub type Row = (u8, Request, Answer);

/// The words are 0, 1 and 2, the mutexes 0 and 1, the semaphores 0 and 1, and the function `main` is 1.
pub const PROGRAM: &str =
    "shared x = 7;\nshared a[2];\nmutex m;\nmutex n;\nsema most = 2147483647;\nsema none;\nfn other() {\nskip;\n}\nfn main() {\nskip;\n}\n";

/// What thread 1 is answered before it spawns.
pub const ALONE: [Row; 21] = [
    // Words and cells.
    (1, Request::Begin { line: 1 }, Answer::Granted(0)),
    (1, Request::Read { line: 1, word: 0 }, Answer::Granted(7)),
    (
        1,
        Request::Write {
            line: 1,
            word: 2,
            value: 9,
        },
        Answer::Granted(0),
    ),
    (1, Request::Read { line: 1, word: 2 }, Answer::Granted(9)),
    (1, Request::Read { line: 1, word: 1 }, Answer::Granted(0)),
    // A mutex that nobody holds, and its own.
    (1, Request::Unlock { line: 1, m: 0 }, Answer::Trapped(3)),
    (1, Request::Lock { line: 1, m: 0 }, Answer::Granted(0)),
    (
        1,
        Request::Lock { line: 1, m: 0 },
        Answer::Disabled(What::Lock(0)),
    ),
    (1, Request::Unlock { line: 1, m: 1 }, Answer::Trapped(3)),
    // The greatest value of a semaphore, and the least.
    (1, Request::Up { line: 1, s: 0 }, Answer::Trapped(7)),
    (1, Request::Down { line: 1, s: 0 }, Answer::Granted(0)),
    (1, Request::Up { line: 1, s: 0 }, Answer::Granted(0)),
    (1, Request::Up { line: 1, s: 0 }, Answer::Trapped(7)),
    (
        1,
        Request::Down { line: 1, s: 1 },
        Answer::Disabled(What::Down(1)),
    ),
    // Its own end, and threads that there aren't.
    (
        1,
        Request::Join { line: 1, value: 1 },
        Answer::Disabled(What::Join(1)),
    ),
    (1, Request::Join { line: 1, value: 2 }, Answer::Trapped(4)),
    (1, Request::Join { line: 1, value: 0 }, Answer::Trapped(4)),
    (1, Request::Join { line: 1, value: -1 }, Answer::Trapped(4)),
    // What asks nothing of the store.
    (1, Request::Print { line: 1, value: 3 }, Answer::Granted(0)),
    (1, Request::Tick { line: 1, place: 1 }, Answer::Granted(0)),
    (1, Request::Trap { line: 1, reason: 2 }, Answer::Granted(0)),
];

/// What threads 1 and 2 are answered. Thread 1 holds mutex 0.
pub const TWO: [Row; 16] = [
    // A thread that lives.
    (
        1,
        Request::Join { line: 1, value: 2 },
        Answer::Disabled(What::Join(2)),
    ),
    (2, Request::Begin { line: 1 }, Answer::Granted(0)),
    (
        1,
        Request::Join { line: 1, value: 2 },
        Answer::Disabled(What::Join(2)),
    ),
    // The other's mutex.
    (
        2,
        Request::Lock { line: 1, m: 0 },
        Answer::Disabled(What::Lock(0)),
    ),
    (2, Request::Unlock { line: 1, m: 0 }, Answer::Trapped(3)),
    (1, Request::Unlock { line: 1, m: 0 }, Answer::Granted(0)),
    (2, Request::Lock { line: 1, m: 0 }, Answer::Granted(0)),
    (1, Request::Unlock { line: 1, m: 0 }, Answer::Trapped(3)),
    // What one writes the other reads, and what one puts up the other takes down.
    (
        2,
        Request::Write {
            line: 1,
            word: 0,
            value: -5,
        },
        Answer::Granted(0),
    ),
    (1, Request::Read { line: 1, word: 0 }, Answer::Granted(-5)),
    (2, Request::Up { line: 1, s: 1 }, Answer::Granted(0)),
    (1, Request::Down { line: 1, s: 1 }, Answer::Granted(0)),
    (
        2,
        Request::Down { line: 1, s: 1 },
        Answer::Disabled(What::Down(1)),
    ),
    // A thread that has ended keeps its mutex.
    (2, Request::End { line: 1 }, Answer::Granted(0)),
    (1, Request::Join { line: 1, value: 2 }, Answer::Granted(0)),
    (
        1,
        Request::Lock { line: 1, m: 0 },
        Answer::Disabled(What::Lock(0)),
    ),
];

/// What thread 1 is answered where eight threads were spawned.
pub const END: [Row; 4] = [
    (
        1,
        Request::Join { line: 1, value: 8 },
        Answer::Disabled(What::Join(8)),
    ),
    (1, Request::Join { line: 1, value: 9 }, Answer::Trapped(4)),
    (
        1,
        Request::Join {
            line: 1,
            value: 4294967298,
        },
        Answer::Trapped(4),
    ),
    (1, Request::End { line: 1 }, Answer::Granted(0)),
];
