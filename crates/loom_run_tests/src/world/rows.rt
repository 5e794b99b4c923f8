//! Journals of programs with several threads, row by row.

pub struct Row {
    pub program: &'static str,
    /// how many entries threads make at most
    pub limit: u32,
    pub text: &'static str,
}

pub const ROWS: [Row; 9] = [
    // Both threads read before either writes: an update is lost.
    Row {
        program: "shared x;\nfn add() {\nx = x + 1;\n}\nfn main() {\nlet a = spawn add();\nx = x + 1;\njoin a;\nprint x;\n}\n",
        limit: 100,
        text: "1:5 begin\n1:6 spawn 2 0\n2:2 begin\n1:7 read 0 0\n2:3 read 0 0\n1:7 write 0 1\n2:3 write 0 1\n1:8 blocked join 2\n2:2 end\n1:8 join 2\n1:9 read 0 1\n1:9 print 1\n1:5 end\nfinish done\n",
    },
    // A mutex that its own thread locks again.
    Row {
        program: "mutex m;\nfn main() {\nlock m;\nlock m;\n}\n",
        limit: 100,
        text: "1:2 begin\n1:3 lock 0\n1:4 blocked lock 0\nfinish stuck\n",
    },
    // A semaphore at 0, until the other thread puts it up.
    Row {
        program: "sema s;\nfn w() {\nup s;\n}\nfn main() {\nlet t = spawn w();\ndown s;\n}\n",
        limit: 100,
        text: "1:5 begin\n1:6 spawn 2 0\n2:2 begin\n1:7 blocked down 0\n2:3 up 0\n1:7 down 0\n2:2 end\n1:5 end\nfinish done\n",
    },
    // A thread outlives thread 1.
    Row {
        program: "fn w() {\nprint 1;\nprint 2;\n}\nfn main() {\nlet t = spawn w();\n}\n",
        limit: 100,
        text: "1:5 begin\n1:6 spawn 2 0\n2:1 begin\n1:5 end\n2:2 print 1\n2:3 print 2\n2:1 end\nfinish done\n",
    },
    // A limit with several threads.
    Row {
        program: "fn w() {\nprint 1;\nprint 2;\n}\nfn main() {\nlet t = spawn w();\n}\n",
        limit: 3,
        text: "1:5 begin\n1:6 spawn 2 0\n2:1 begin\nfinish limit\n",
    },
    // The traps 3, 4 and 7.
    Row {
        program: "mutex m;\nfn main() {\nunlock m;\n}\n",
        limit: 100,
        text: "1:2 begin\n1:3 trap 3\n1:2 end\nfinish done\n",
    },
    Row {
        program: "fn main() {\njoin 5;\n}\n",
        limit: 100,
        text: "1:1 begin\n1:2 trap 4\n1:1 end\nfinish done\n",
    },
    Row {
        program: "sema s = 2147483647;\nfn main() {\nup s;\n}\n",
        limit: 100,
        text: "1:2 begin\n1:3 trap 7\n1:2 end\nfinish done\n",
    },
    // A ninth thread is trap 5: each thread spawns the next one, as far as it can.
    Row {
        program: "fn w(n) {\nif (n > 0) {\nlet t = spawn w(n - 1);\n}\n}\nfn main() {\nlet t = spawn w(7);\n}\n",
        limit: 100,
        text: "1:6 begin\n1:7 spawn 2 0 7\n2:1 begin\n1:6 end\n2:3 spawn 3 0 6\n3:1 begin\n2:1 end\n3:3 spawn 4 0 5\n4:1 begin\n3:1 end\n4:3 spawn 5 0 4\n5:1 begin\n4:1 end\n5:3 spawn 6 0 3\n6:1 begin\n5:1 end\n6:3 spawn 7 0 2\n7:1 begin\n6:1 end\n7:3 spawn 8 0 1\n8:1 begin\n7:1 end\n8:3 trap 5\n8:1 end\nfinish done\n",
    },
];
