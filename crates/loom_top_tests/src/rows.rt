//! What runs write, row by row: the program, the words, the status and the text.

/// A run of one program, with a name for where it fails.
pub struct Row {
    pub name: &'static str,
    pub program: &'static [u8],
    pub words: &'static [&'static str],
    pub status: u8,
    pub text: &'static [u8],
}

pub const PLAIN: &[&str] = &["run", "p.lm"];

/// A sum, printed.
pub const SUM: &[u8] = b"fn main() {\n  print 2 + 3;\n}\n";

/// Programs of one thread.
pub const ROWS: [Row; 11] = [
    Row {
        name: "a sum",
        program: SUM,
        words: PLAIN,
        status: 0,
        text: b"5\n---\n1:1 begin\n1:2 print 5\n1:1 end\nfinish done\n",
    },
    Row {
        name: "a sum, where the limit is the end",
        program: SUM,
        words: &["run", "p.lm", "--steps", "3"],
        status: 8,
        text: b"5\n---\n1:1 begin\n1:2 print 5\n1:1 end\nfinish limit\n",
    },
    Row {
        name: "a sum, where the limit comes before the end",
        program: SUM,
        words: &["run", "p.lm", "--steps", "2"],
        status: 8,
        text: b"5\n---\n1:1 begin\n1:2 print 5\nfinish limit\n",
    },
    Row {
        name: "shared words",
        program: b"shared x = -7; shared y;\nfn main() {\n  y = x + (3 + x);\n  print y;\n}\n",
        words: PLAIN,
        status: 0,
        text: b"-11\n---\n1:2 begin\n1:3 read 0 -7\n1:3 read 0 -7\n1:3 write 1 -11\n1:4 read 1 -11\n1:4 print -11\n1:2 end\nfinish done\n",
    },
    Row {
        name: "a loop with no end",
        program: b"fn main() {\nwhile (1) {\nskip;\n}\n}\n",
        words: &["run", "p.lm", "--steps", "5"],
        status: 8,
        text: b"---\n1:1 begin\n1:2 tick 3\n1:2 tick 3\n1:2 tick 3\n1:2 tick 3\nfinish limit\n",
    },
    Row {
        name: "a quotient by 0",
        program: b"shared x;\nfn main() {\nx = 7 / x;\n}\n",
        words: PLAIN,
        status: 0,
        text: b"---\n1:2 begin\n1:3 read 0 0\n1:3 trap 1\n1:2 end\nfinish done\n",
    },
    Row {
        name: "a remainder by 0",
        program: b"fn main() {\nprint 1;\nprint 7 % 0;\nprint 2;\n}\n",
        words: PLAIN,
        status: 0,
        text: b"1\n---\n1:1 begin\n1:2 print 1\n1:3 trap 1\n1:1 end\nfinish done\n",
    },
    Row {
        name: "a write behind an array",
        program: b"shared a[2];\nfn main() {\na[2] = 1;\n}\n",
        words: PLAIN,
        status: 0,
        text: b"---\n1:2 begin\n1:3 trap 2\n1:2 end\nfinish done\n",
    },
    Row {
        name: "a read before an array",
        program: b"shared a[2];\nfn main() {\nprint a[0 - 1];\n}\n",
        words: PLAIN,
        status: 0,
        text: b"---\n1:2 begin\n1:3 trap 2\n1:2 end\nfinish done\n",
    },
    Row {
        name: "a frame too many",
        program: b"fn f() {\nf();\n}\nfn main() {\nf();\n}\n",
        words: PLAIN,
        status: 0,
        text: b"---\n1:4 begin\n1:2 trap 6\n1:4 end\nfinish done\n",
    },
    Row {
        name: "the least number by -1",
        program: b"fn main() {\nprint (0 - 9223372036854775807 - 1) / (0 - 1);\n}\n",
        words: PLAIN,
        status: 0,
        text: b"-9223372036854775808\n---\n1:1 begin\n1:2 print -9223372036854775808\n1:1 end\nfinish done\n",
    },
];
