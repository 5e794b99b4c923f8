//! Texts that are refused, each at its line and for its reason.

use loom_lang::refusal::{Reason, Which};

pub struct Row {
    pub text: &'static [u8],
    pub line: u32,
    pub reason: Reason,
}

/// By the grammar, the lines of statements, a missing `main`, and limits.
pub const REFUSED: [Row; 20] = [
    Row {
        text: b"",
        line: 1,
        reason: Reason::NoMain,
    },
    Row {
        text: b"fn main() {",
        line: 1,
        reason: Reason::Syntax,
    },
    Row {
        text: b"fn main() {\n\n",
        line: 3,
        reason: Reason::Syntax,
    },
    Row {
        text: b"fn main() {}\n}",
        line: 2,
        reason: Reason::Syntax,
    },
    Row {
        text: b"fn main() {}\n#",
        line: 2,
        reason: Reason::Syntax,
    },
    Row {
        text: b"fn main() {}\n\xc3\xa9",
        line: 2,
        reason: Reason::Syntax,
    },
    Row {
        text: b"fn main() {\nskip skip;\n}",
        line: 2,
        reason: Reason::Syntax,
    },
    Row {
        text: b"fn f() {}\nfn main() {\nlet v = f(1) + 1;\n}",
        line: 3,
        reason: Reason::Syntax,
    },
    Row {
        text: b"fn f(p) {}\nfn main() {\nprint f(1);\n}",
        line: 3,
        reason: Reason::Syntax,
    },
    Row {
        text: b"sema s = 2147483648;\nfn main() {}",
        line: 1,
        reason: Reason::Syntax,
    },
    Row {
        text: b"fn main() {\nprint 9223372036854775808;\n}",
        line: 2,
        reason: Reason::Syntax,
    },
    Row {
        text: b"fn main() {\nskip; skip;\n}",
        line: 2,
        reason: Reason::SecondOnLine,
    },
    Row {
        text: b"fn f() { skip; } fn main() { skip; }",
        line: 1,
        reason: Reason::SecondOnLine,
    },
    Row {
        text: b"fn main() {\nif (1) { skip;\n}\n}",
        line: 2,
        reason: Reason::SecondOnLine,
    },
    Row {
        text: b"fn f() {}\n\n",
        line: 3,
        reason: Reason::NoMain,
    },
    Row {
        text: b"shared main;\n",
        line: 2,
        reason: Reason::NoMain,
    },
    Row {
        text: b"shared a[1025];\nfn main() {}",
        line: 1,
        reason: Reason::TooMany(Which::Cells),
    },
    Row {
        text: b"shared a[1024];\nshared x;\nfn main() {}",
        line: 2,
        reason: Reason::TooMany(Which::Cells),
    },
    Row {
        text: b"shared a[4294967296];\nfn main() {}",
        line: 1,
        reason: Reason::TooMany(Which::Cells),
    },
    Row {
        text: b"fn f(a, b, c, d, e) {}\nfn main() {}",
        line: 1,
        reason: Reason::TooMany(Which::Params),
    },
];

/// By names and by counts of arguments.
pub const REFUSED_FOR_NAMES: [Row; 26] = [
    Row {
        text: b"fn main() {\nprint x;\n}",
        line: 2,
        reason: Reason::UnknownName,
    },
    Row {
        text: b"fn f(p) {}\nfn main() {\nprint p;\n}",
        line: 3,
        reason: Reason::UnknownName,
    },
    Row {
        text: b"shared x;\nfn main() {\nprint x[0];\n}",
        line: 3,
        reason: Reason::UnknownName,
    },
    Row {
        text: b"shared a[2];\nfn main() {\nprint a;\n}",
        line: 3,
        reason: Reason::UnknownName,
    },
    Row {
        text: b"shared x;\nfn f() {}\nfn main() {\nx = f();\n}",
        line: 4,
        reason: Reason::UnknownName,
    },
    Row {
        text: b"sema s;\nfn main() {\nlock s;\n}",
        line: 3,
        reason: Reason::UnknownName,
    },
    Row {
        text: b"mutex m;\nfn main() {\ndown m;\n}",
        line: 3,
        reason: Reason::UnknownName,
    },
    Row {
        text: b"fn main() {\nf();\n}",
        line: 2,
        reason: Reason::UnknownName,
    },
    Row {
        text: b"fn main() {\nwhile (\nx) {\n}\n}",
        line: 2,
        reason: Reason::UnknownName,
    },
    Row {
        text: b"fn main() {\nif (1) {\n} else {\nprint x;\n}\n}",
        line: 4,
        reason: Reason::UnknownName,
    },
    Row {
        text: b"fn f(p) {}\nfn main() {\nf();\n}",
        line: 3,
        reason: Reason::WrongCount,
    },
    Row {
        text: b"fn f(p) {}\nfn main() {\nlet t = spawn f(1, 2);\n}",
        line: 3,
        reason: Reason::WrongCount,
    },
    Row {
        text: b"fn f(p) {}\nfn main() {\nwhile (1) {\nf();\n}\n}",
        line: 4,
        reason: Reason::WrongCount,
    },
    Row {
        text: b"\nfn main(p) {}",
        line: 2,
        reason: Reason::WrongCount,
    },
    Row {
        text: b"shared x; mutex x;\nfn main() {}",
        line: 1,
        reason: Reason::NameTwice,
    },
    Row {
        text: b"fn f() {}\nfn f(p) {}\nfn main() {}",
        line: 2,
        reason: Reason::NameTwice,
    },
    Row {
        text: b"fn f(p,\np) {}\nfn main() {}",
        line: 1,
        reason: Reason::NameTwice,
    },
    Row {
        text: b"fn f(f) {}\nfn main() {}",
        line: 1,
        reason: Reason::NameTwice,
    },
    Row {
        text: b"shared x;\nfn main() {\nlet x = 1;\n}",
        line: 3,
        reason: Reason::NameTwice,
    },
    Row {
        text: b"fn main() {\nlet x = 1;\n}\nshared x;",
        line: 4,
        reason: Reason::NameTwice,
    },
    Row {
        text: b"fn main() {\nlet v = 1;\nlet v = 2;\n}",
        line: 3,
        reason: Reason::NameTwice,
    },
    Row {
        text: b"fn main() {}\nfn main(p) {}",
        line: 2,
        reason: Reason::NameTwice,
    },
    Row {
        text: b"fn main(p) {}\nfn main() {}",
        line: 1,
        reason: Reason::WrongCount,
    },
    // the lower line counts, and at one line the lesser reason
    Row {
        text: b"fn f() {}\nfn main() {\nf(1);\nskip; skip;\n}",
        line: 3,
        reason: Reason::WrongCount,
    },
    Row {
        text: b"fn f() {}\nfn main() {\nf(x);\n}",
        line: 3,
        reason: Reason::UnknownName,
    },
    Row {
        text: b"fn f() {}\nfn main() {\nskip; f(x);\n}",
        line: 3,
        reason: Reason::SecondOnLine,
    },
];
