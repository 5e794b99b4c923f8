//! What runs write into which scripts put filters of exclusions.

use crate::filters::{CALL, INC};
use crate::scripts::{LOOP, Row, run_limit_rows, run_rows};
use std::test::Fail;

// A function that is left with a value.
const RET: &[u8] =
    b"shared x;\nfn f() {\nx = 1;\nreturn x;\n}\nfn main() {\nlet v = f();\nprint v;\n}\n";

// A function in which the first thread that comes divides by 0, and the second one doesn't.
const TRAP: &[u8] =
    b"shared x;\nfn f() {\nx = x + 1;\nprint 6 / (x - 1);\n}\nfn main() {\nlet t = spawn f();\nf();\njoin t;\n}\n";

// Two threads at one semaphore.
const HOLD: &[u8] =
    b"sema s;\nfn a() {\ndown s;\n}\nfn go() {\nup s;\nup s;\n}\nfn main() {\nlet t = spawn a();\nlet u = spawn a();\nprint 1;\ngo();\njoin t;\njoin u;\n}\n";

// A thread that waits for the mutex of another one, which goes on printing.
const PARK: &[u8] =
    b"mutex m;\nshared x;\nfn w() {\nlock m;\nx = 1;\nunlock m;\n}\nfn main() {\nlock m;\nlet t = spawn w();\nlet i = 0;\nwhile (i < 2) {\nprint i;\ni = i + 1;\n}\nunlock m;\njoin t;\n}\n";

/// Filters that go in, and one that comes out.
const FIRST_ROWS: [Row; 9] = [
    Row {
        name: "a lost update that is bypassed",
        program: INC,
        script: b"at 0 install fix {p.lm:3; p.lm:3} <> {p.lm:7; p.lm:7}\n",
        status: 0,
        text: b"2\n---\nasked 1\ninstalled 1 1 0 0 0 0 0 0 0 0\n1:5 begin\n1:6 spawn 2 0\n2:2 begin\n1:7 enter 1 1\n2:3 blocked enter 1 1\n1:7 at 1 3 4\n1:7 read 0 0\n1:7 write 0 1\n1:7 past 1 3 4\n1:7 leave 1 1\n2:3 enter 1 1\n1:8 blocked join 2\n2:3 at 1 1 2\n2:3 read 0 1\n2:3 write 0 2\n2:3 past 1 1 2\n2:3 leave 1 1\n2:2 end\n1:8 join 2\n1:9 read 0 2\n1:9 print 2\n1:5 end\nfinish done\n",
    },
    Row {
        name: "a region in a loop, which waits for its end",
        program: CALL,
        script: b"at 2 install f {p.lm:8; p.lm:9}\n",
        status: 0,
        text: b"14\n---\n1:5 begin\n1:3 read 0 0\nasked 1\n1:3 write 0 1\n1:9 read 0 1\n1:9 write 0 2\ninstalled 1 1 7 0 0 0 0 0 0 0\n1:7 cross 7 1 0\n1:8 enter 1 1\n1:8 at 1 1\n1:3 read 0 2\n1:3 write 0 3\n1:8 past 1 1\n1:9 at 1 2\n1:9 read 0 3\n1:9 write 0 6\n1:9 past 1 2\n1:9 leave 1 1\n1:8 enter 1 1\n1:8 at 1 1\n1:3 read 0 6\n1:3 write 0 7\n1:8 past 1 1\n1:9 at 1 2\n1:9 read 0 7\n1:9 write 0 14\n1:9 past 1 2\n1:9 leave 1 1\n1:12 read 0 14\n1:12 print 14\n1:5 end\nfinish done\n",
    },
    Row {
        name: "a function that is left",
        program: RET,
        script: b"at 0 install r f()\n",
        status: 0,
        text: b"1\n---\nasked 1\ninstalled 1 1 0 0 0 0 0 0 0 0\n1:6 begin\n1:2 enter 1 1\n1:2 at 1 1\n1:3 write 0 1\n1:4 read 0 1\n1:2 back\n1:2 leave 1 1\n1:8 print 1\n1:6 end\nfinish done\n",
    },
    Row {
        name: "a trap inside a region",
        program: b"shared x;\nfn main() {\nx = 1;\nprint 1 / 0;\n}\n",
        script: b"at 0 install r {p.lm:3; p.lm:4}\n",
        status: 0,
        text: b"---\nasked 1\ninstalled 1 1 0 0 0 0 0 0 0 0\n1:2 begin\n1:3 enter 1 1\n1:3 at 1 1\n1:3 write 0 1\n1:3 past 1 1\n1:4 at 1 2\n1:4 trap 1\n1:4 leave 1 1\n1:2 end\nfinish done\n",
    },
    Row {
        name: "a trap inside a region, for which another thread waits",
        program: TRAP,
        script: b"at 0 install r {p.lm:3; p.lm:4}\n",
        status: 0,
        text: b"6\n---\nasked 1\ninstalled 1 1 0 0 0 0 0 0 0 0\n1:6 begin\n1:7 spawn 2 0\n2:2 begin\n1:3 enter 1 1\n2:3 blocked enter 1 1\n1:3 at 1 1\n1:3 read 0 0\n1:3 write 0 1\n1:3 past 1 1\n1:4 at 1 2\n1:4 read 0 1\n1:4 trap 1\n1:4 leave 1 1\n2:3 enter 1 1\n1:6 end\n2:3 at 1 1\n2:3 read 0 1\n2:3 write 0 2\n2:3 past 1 1\n2:4 at 1 2\n2:4 read 0 2\n2:4 print 6\n2:4 past 1 2\n2:4 leave 1 1\n2:2 end\nfinish done\n",
    },
    Row {
        name: "a filter that comes out while threads are inside and blocked",
        program: HOLD,
        script: b"at 0 install m {p.lm:3; p.lm:3}\nat 9 remove m\n",
        status: 0,
        text: b"1\n---\nasked 1\ninstalled 1 1 0 0 0 0 0 0 0 0\n1:9 begin\n1:10 spawn 2 0\n2:2 begin\n1:11 spawn 3 0\n2:3 enter 1 1\n3:2 begin\n1:12 print 1\n2:3 at 1 1 2\n3:3 blocked enter 1 1\nasked 2\n2:3 blocked down 0\nremoved 2 2 4 2 2 0 0 0 0 0\n1:5 cross 4 2 0\n2:3 cross 2 2 0\n3:3 cross 2 2 0\n1:6 up 0\n2:3 down 0\n3:3 blocked down 0\n1:7 up 0\n2:2 end\n3:3 down 0\n1:14 join 2\n3:2 end\n1:15 join 3\n1:9 end\nfinish done\n",
    },
    Row {
        name: "a thread that stays at an unsafe place",
        program: PARK,
        script: b"at 6 install f {p.lm:4; p.lm:6}\n",
        status: 0,
        text: b"0\n1\n---\n1:8 begin\n1:9 lock 0\n1:10 spawn 2 0\n2:3 begin\n1:13 print 0\n2:4 blocked lock 0\nasked 1\nstalled 1 2 4\n1:13 print 1\n1:16 unlock 0\n2:4 lock 0\n1:17 blocked join 2\n2:5 write 0 1\n2:6 unlock 0\n2:3 end\n1:17 join 2\n1:8 end\nfinish done\n",
    },
    Row {
        name: "an install that waits for two threads at unsafe places",
        program: INC,
        script: b"at 4 install fix {p.lm:3; p.lm:3} <> {p.lm:7; p.lm:7}\nat 99 remove fix\n",
        status: 0,
        text: b"2\n---\n1:5 begin\n1:6 spawn 2 0\n2:2 begin\n1:7 read 0 0\nasked 1\n1:7 write 0 1\n1:8 blocked join 2\ninstalled 1 1 7 1 0 0 0 0 0 0\n1:8 cross 7 1 0\n2:2 cross 1 1 0\n1:8 blocked join 2\n2:3 enter 1 1\n2:3 at 1 1 2\n2:3 read 0 1\n2:3 write 0 2\n2:3 past 1 1 2\n2:3 leave 1 1\n2:2 end\n1:8 join 2\n1:9 read 0 2\n1:9 print 2\n1:5 end\nunreached 2\nfinish done\n",
    },
    Row {
        name: "an install between refusals",
        program: INC,
        script: b"at 0 remove f\nat 4 install f {p.lm:3; p.lm:3} <> {p.lm:7; p.lm:7}\nat 4 install g p.lm:4 > p.lm:3\nat 99 remove f\n",
        status: 0,
        text: b"2\n---\nasked 1\nrefused 1 12 0\n1:5 begin\n1:6 spawn 2 0\n2:2 begin\n1:7 read 0 0\nasked 2\n1:7 write 0 1\n1:8 blocked join 2\ninstalled 2 1 7 1 0 0 0 0 0 0\nasked 3\nrefused 3 3 1\n1:8 cross 7 1 0\n2:2 cross 1 1 0\n1:8 blocked join 2\n2:3 enter 2 1\n2:3 at 2 1 2\n2:3 read 0 1\n2:3 write 0 2\n2:3 past 2 1 2\n2:3 leave 2 1\n2:2 end\n1:8 join 2\n1:9 read 0 2\n1:9 print 2\n1:5 end\nunreached 4\nfinish done\n",
    },
];

/// Filters that come out and go in again: while threads are blocked, inside, in callees.
const LATER_ROWS: [Row; 11] = [
    Row {
        name: "a removal while a thread is inside and one is kept out",
        program: INC,
        script: b"at 0 install fix {p.lm:3; p.lm:3} <> {p.lm:7; p.lm:7}\nat 5 remove fix\n",
        status: 0,
        text: b"2\n---\nasked 1\ninstalled 1 1 0 0 0 0 0 0 0 0\n1:5 begin\n1:6 spawn 2 0\n2:2 begin\n1:7 enter 1 1\n2:3 blocked enter 1 1\nasked 2\n1:7 at 1 3 4\n1:7 read 0 0\n1:7 write 0 1\n1:7 past 1 3 4\n1:7 leave 1 1\n1:8 blocked join 2\nremoved 2 2 7 2 0 0 0 0 0 0\n1:8 cross 7 2 0\n2:3 cross 2 2 0\n1:8 blocked join 2\n2:3 read 0 1\n2:3 write 0 2\n2:2 end\n1:8 join 2\n1:9 read 0 2\n1:9 print 2\n1:5 end\nfinish done\n",
    },
    Row {
        name: "a removal, and an install behind it",
        program: INC,
        script: b"at 0 install fix {p.lm:3; p.lm:3} <> {p.lm:7; p.lm:7}\nat 5 remove fix\nat 6 install fix {p.lm:3; p.lm:3} <> {p.lm:7; p.lm:7}\n",
        status: 0,
        text: b"2\n---\nasked 1\ninstalled 1 1 0 0 0 0 0 0 0 0\n1:5 begin\n1:6 spawn 2 0\n2:2 begin\n1:7 enter 1 1\n2:3 blocked enter 1 1\nasked 2\n1:7 at 1 3 4\n1:7 read 0 0\n1:7 write 0 1\n1:7 past 1 3 4\n1:7 leave 1 1\n1:8 blocked join 2\nremoved 2 2 7 2 0 0 0 0 0 0\nasked 3\n2:3 cross 2 2 0\n2:3 read 0 1\n2:3 write 0 2\n2:2 end\ninstalled 3 3 7 0 0 0 0 0 0 0\n1:8 cross 7 3 0\n1:8 join 2\n1:9 read 0 2\n1:9 print 2\n1:5 end\nfinish done\n",
    },
    Row {
        name: "a name that is in use, and the same one behind its removal",
        program: INC,
        script: b"at 0 install fix {p.lm:3; p.lm:3} <> {p.lm:7; p.lm:7}\nat 1 install fix add()\nat 2 remove fix\nat 2 install fix add()\n",
        status: 0,
        text: b"2\n---\nasked 1\ninstalled 1 1 0 0 0 0 0 0 0 0\n1:5 begin\nasked 2\nrefused 2 11 0\n1:6 spawn 2 0\nasked 3\n1:7 enter 1 1\n1:7 at 1 3 4\n1:7 read 0 0\n1:7 write 0 1\n1:7 past 1 3 4\n1:7 leave 1 1\n1:8 blocked join 2\nremoved 3 2 7 0 0 0 0 0 0 0\nasked 4\ninstalled 4 3 7 0 0 0 0 0 0 0\n1:8 cross 7 3 0\n2:2 begin\n1:8 blocked join 2\n2:2 enter 4 1\n2:2 at 4 1\n2:3 read 0 1\n2:3 write 0 2\n2:2 back\n2:2 leave 4 1\n2:2 end\n1:8 join 2\n1:9 read 0 2\n1:9 print 2\n1:5 end\nfinish done\n",
    },
    Row {
        name: "a removal in a callee, and an install behind it",
        program: CALL,
        script: b"at 0 install f {p.lm:8; p.lm:9}\nat 4 remove f\nat 6 install f {p.lm:8; p.lm:9}\n",
        status: 0,
        text: b"14\n---\nasked 1\ninstalled 1 1 0 0 0 0 0 0 0 0\n1:5 begin\n1:8 enter 1 1\n1:8 at 1 1\n1:3 read 0 0\nasked 2\n1:3 write 0 1\n1:8 past 1 1\n1:9 at 1 2\n1:9 read 0 1\n1:9 write 0 2\n1:9 past 1 2\n1:9 leave 1 1\nremoved 2 2 7 0 0 0 0 0 0 0\nasked 3\ninstalled 3 3 7 0 0 0 0 0 0 0\n1:7 cross 7 3 0\n1:8 enter 3 1\n1:8 at 3 1\n1:3 read 0 2\n1:3 write 0 3\n1:8 past 3 1\n1:9 at 3 2\n1:9 read 0 3\n1:9 write 0 6\n1:9 past 3 2\n1:9 leave 3 1\n1:8 enter 3 1\n1:8 at 3 1\n1:3 read 0 6\n1:3 write 0 7\n1:8 past 3 1\n1:9 at 3 2\n1:9 read 0 7\n1:9 write 0 14\n1:9 past 3 2\n1:9 leave 3 1\n1:12 read 0 14\n1:12 print 14\n1:5 end\nfinish done\n",
    },
    Row {
        name: "a removal of one filter of two, while a thread is inside the other one's region",
        program: INC,
        script: b"at 0 install a {p.lm:3; p.lm:3} <> {p.lm:7; p.lm:7}\nat 0 install b add()\nat 7 remove a\n",
        status: 0,
        text: b"2\n---\nasked 1\ninstalled 1 1 0 0 0 0 0 0 0 0\nasked 2\ninstalled 2 2 0 0 0 0 0 0 0 0\n1:5 begin\n1:6 spawn 2 0\n2:2 begin\n1:7 enter 1 1\n2:2 enter 2 1\n1:7 at 1 3 4\n2:2 at 2 1\nasked 3\n1:7 read 0 0\n2:3 blocked enter 1 1\n1:7 write 0 1\n1:7 past 1 3 4\n1:7 leave 1 1\n1:8 blocked join 2\nremoved 3 3 7 2 0 0 0 0 0 0\n1:8 cross 7 3 0\n2:3 cross 2 3 0\n1:8 blocked join 2\n2:3 read 0 1\n2:3 write 0 2\n2:2 back\n2:2 leave 2 1\n2:2 end\n1:8 join 2\n1:9 read 0 2\n1:9 print 2\n1:5 end\nfinish done\n",
    },
    Row {
        name: "orders, and what excludes everything",
        program: INC,
        script: b"at 0 install a p.lm:7 > p.lm:3\nat 0 install b add() <> *\nat 1 install c add(); p.lm:7 > p.lm:3\n",
        status: 0,
        text: b"1\n---\nasked 1\nrefused 1 15 1\nasked 2\nrefused 2 15 1\n1:5 begin\nasked 3\nrefused 3 15 2\n1:6 spawn 2 0\n2:2 begin\n1:7 read 0 0\n2:3 read 0 0\n1:7 write 0 1\n2:3 write 0 1\n1:8 blocked join 2\n2:2 end\n1:8 join 2\n1:9 read 0 1\n1:9 print 1\n1:5 end\nfinish done\n",
    },
    Row {
        name: "a filter by which the run is stuck",
        program: PARK,
        script: b"at 0 install f {p.lm:4; p.lm:6} <> {p.lm:9; p.lm:17}\n",
        status: 7,
        text: b"0\n1\n---\nasked 1\ninstalled 1 1 0 0 0 0 0 0 0 0\n1:8 begin\n1:9 enter 1 1\n1:9 at 1 3\n1:9 lock 0\n1:9 past 1 3\n1:10 spawn 2 0\n2:3 begin\n1:13 print 0\n2:4 blocked enter 1 1\n1:13 print 1\n1:16 unlock 0\n1:17 at 1 4\n1:17 blocked join 2\nfinish stuck\n",
    },
    Row {
        name: "a removal where all are blocked by the filter",
        program: PARK,
        script: b"at 0 install f {p.lm:5; p.lm:6} <> {p.lm:10; p.lm:17}\nat 13 remove f\n",
        status: 0,
        text: b"0\n1\n---\nasked 1\ninstalled 1 1 0 0 0 0 0 0 0 0\n1:8 begin\n1:9 lock 0\n1:10 enter 1 1\n1:10 at 1 3\n1:10 spawn 2 0\n2:3 begin\n1:10 past 1 3\n2:4 blocked lock 0\n1:13 print 0\n1:13 print 1\n1:16 unlock 0\n2:4 lock 0\n1:17 at 1 4\nasked 2\n1:17 blocked join 2\n2:5 blocked enter 1 1\nremoved 2 2 15 3 0 0 0 0 0 0\n1:17 cross 15 2 0\n2:5 cross 3 2 0\n1:17 blocked join 2\n2:5 write 0 1\n2:6 unlock 0\n2:3 end\n1:17 join 2\n1:8 end\nfinish done\n",
    },
    Row {
        name: "an install that stalls twice",
        program: PARK,
        script: b"at 6 install f {p.lm:4; p.lm:6}\nat 7 install f {p.lm:4; p.lm:6}\n",
        status: 0,
        text: b"0\n1\n---\n1:8 begin\n1:9 lock 0\n1:10 spawn 2 0\n2:3 begin\n1:13 print 0\n2:4 blocked lock 0\nasked 1\nstalled 1 2 4\n1:13 print 1\nasked 2\nstalled 2 2 4\n1:16 unlock 0\n2:4 lock 0\n1:17 blocked join 2\n2:5 write 0 1\n2:6 unlock 0\n2:3 end\n1:17 join 2\n1:8 end\nfinish done\n",
    },
    Row {
        name: "three answers one behind another",
        program: INC,
        script: b"at 1 install fix {p.lm:3; p.lm:3} <> {p.lm:7; p.lm:7}\nat 9 install two add()\nat 12 remove fix\nat 12 install fix {p.lm:3; p.lm:3} <> {p.lm:7; p.lm:7}\n",
        status: 0,
        text: b"2\n---\n1:5 begin\nasked 1\ninstalled 1 1 4 0 0 0 0 0 0 0\n1:5 cross 4 1 0\n1:6 spawn 2 0\n2:2 begin\n1:7 enter 1 1\n2:3 blocked enter 1 1\n1:7 at 1 3 4\n1:7 read 0 0\n1:7 write 0 1\nasked 2\n1:7 past 1 3 4\n1:7 leave 1 1\n2:3 enter 1 1\n1:8 blocked join 2\n2:3 at 1 1 2\n2:3 read 0 1\n2:3 write 0 2\n2:3 past 1 1 2\n2:3 leave 1 1\n2:2 end\ninstalled 2 2 7 0 0 0 0 0 0 0\nasked 3\nremoved 3 3 7 0 0 0 0 0 0 0\nasked 4\ninstalled 4 4 7 0 0 0 0 0 0 0\n1:8 cross 7 4 0\n1:8 join 2\n1:9 read 0 2\n1:9 print 2\n1:5 end\nfinish done\n",
    },
    Row {
        name: "a whole function, which a thread is inside",
        program: CALL,
        script: b"at 6 install f step()\nat 12 remove f\n",
        status: 0,
        text: b"14\n---\n1:5 begin\n1:3 read 0 0\n1:3 write 0 1\n1:9 read 0 1\n1:9 write 0 2\n1:3 read 0 2\nasked 1\n1:3 write 0 3\n1:9 read 0 3\n1:9 write 0 6\ninstalled 1 1 7 0 0 0 0 0 0 0\n1:7 cross 7 1 0\n1:2 enter 1 1\n1:2 at 1 1\nasked 2\n1:3 read 0 6\n1:3 write 0 7\n1:2 back\n1:2 leave 1 1\n1:9 read 0 7\n1:9 write 0 14\nremoved 2 2 7 0 0 0 0 0 0 0\n1:7 cross 7 2 0\n1:12 read 0 14\n1:12 print 14\n1:5 end\nfinish done\n",
    },
];

/// Runs with a limit.
const LIMIT_ROWS: [(Row, &str); 8] = [
    (
        Row {
            name: "a command that isn't reached",
            program: CALL,
            script: b"at 2 install f {p.lm:8; p.lm:9}\n",
            status: 8,
            text: b"---\n1:5 begin\n1:3 read 0 0\nunreached 1\nfinish limit\n",
        },
        "2",
    ),
    (
        Row {
            name: "a command that is cut",
            program: CALL,
            script: b"at 2 install f {p.lm:8; p.lm:9}\n",
            status: 8,
            text: b"---\n1:5 begin\n1:3 read 0 0\nasked 1\n1:3 write 0 1\ncut 1\nfinish limit\n",
        },
        "3",
    ),
    (
        Row {
            name: "a removal that is due at the limit",
            program: INC,
            script: b"at 0 install fix {p.lm:3; p.lm:3} <> {p.lm:7; p.lm:7}\nat 6 remove fix\nat 9 remove fix\n",
            status: 8,
            text: b"---\nasked 1\ninstalled 1 1 0 0 0 0 0 0 0 0\n1:5 begin\n1:6 spawn 2 0\n2:2 begin\n1:7 enter 1 1\n2:3 blocked enter 1 1\n1:7 at 1 3 4\nunreached 2\nunreached 3\nfinish limit\n",
        },
        "6",
    ),
    (
        Row {
            name: "a limit behind a removal",
            program: INC,
            script: b"at 0 install fix {p.lm:3; p.lm:3} <> {p.lm:7; p.lm:7}\nat 1 remove fix\nat 9 remove fix\n",
            status: 8,
            text: b"---\nasked 1\ninstalled 1 1 0 0 0 0 0 0 0 0\n1:5 begin\nasked 2\nremoved 2 2 4 0 0 0 0 0 0 0\n1:5 cross 4 2 0\n1:6 spawn 2 0\n2:2 begin\n1:7 read 0 0\n2:3 read 0 0\n1:7 write 0 1\nunreached 3\nfinish limit\n",
        },
        "7",
    ),
    (
        Row {
            name: "a limit behind a stall",
            program: PARK,
            script: b"at 6 install f {p.lm:4; p.lm:6}\nat 6 remove f\n",
            status: 8,
            text: b"0\n1\n---\n1:8 begin\n1:9 lock 0\n1:10 spawn 2 0\n2:3 begin\n1:13 print 0\n2:4 blocked lock 0\nasked 1\nstalled 1 2 4\nasked 2\nrefused 2 12 0\n1:13 print 1\n1:16 unlock 0\nfinish limit\n",
        },
        "8",
    ),
    (
        Row {
            name: "a limit where a thread is kept out",
            program: INC,
            script: b"at 0 install fix {p.lm:3; p.lm:3} <> {p.lm:7; p.lm:7}\nat 5 remove fix\n",
            status: 8,
            text: b"---\nasked 1\ninstalled 1 1 0 0 0 0 0 0 0 0\n1:5 begin\n1:6 spawn 2 0\n2:2 begin\n1:7 enter 1 1\n2:3 blocked enter 1 1\nunreached 2\nfinish limit\n",
        },
        "5",
    ),
    (
        Row {
            name: "a limit inside a region",
            program: LOOP,
            script: b"at 1 install f {p.lm:3; p.lm:3}\nat 9 remove f\n",
            status: 8,
            text: b"---\n1:1 begin\nasked 1\ninstalled 1 1 1 0 0 0 0 0 0 0\n1:1 cross 1 1 0\n1:3 enter 1 1\n1:3 at 1 1 2\n1:3 past 1 1 2\nunreached 2\nfinish limit\n",
        },
        "5",
    ),
    (
        Row {
            name: "a limit where each thread stands for a removal, with an install of the same name behind it",
            program: INC,
            script: b"at 0 install fix {p.lm:3; p.lm:3} <> {p.lm:7; p.lm:7}\nat 5 remove fix\nat 6 install fix {p.lm:3; p.lm:3} <> {p.lm:7; p.lm:7}\n",
            status: 8,
            text: b"---\nasked 1\ninstalled 1 1 0 0 0 0 0 0 0 0\n1:5 begin\n1:6 spawn 2 0\n2:2 begin\n1:7 enter 1 1\n2:3 blocked enter 1 1\nasked 2\n1:7 at 1 3 4\n1:7 read 0 0\n1:7 write 0 1\n1:7 past 1 3 4\n1:7 leave 1 1\n1:8 blocked join 2\ncut 2\nunreached 3\nfinish limit\n",
        },
        "11",
    ),
];

#[test]
fn runs_with_filters(rt: HostRuntime) -> Result<(), Fail> {
    run_rows(&rt, &FIRST_ROWS, &["run", "p.lm", "s.txt"])
}

#[test]
fn takes_filters_out_and_in(rt: HostRuntime) -> Result<(), Fail> {
    run_rows(&rt, &LATER_ROWS, &["run", "p.lm", "s.txt"])
}

#[test]
fn keeps_filters_to_the_limit(rt: HostRuntime) -> Result<(), Fail> {
    run_limit_rows(&rt, &LIMIT_ROWS)
}
