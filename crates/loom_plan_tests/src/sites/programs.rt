//! The programs of the tests, a statement a line, in the file `p.lm`.

/// A loop that calls `step`. Places: 1 entry of `step`, 2 line 3, 3 out, 4 entry of `main`, 5 line 6, 6 the loop of line 7, 7 its back edge, 8 line 8,
/// 9 line 9, 10 line 10, 11 line 12, 12 out.
pub const CALL: &str =
    "shared x;\nfn step() {\nx = x + 1;\n}\nfn main() {\nlet i = 0;\nwhile (i < 3) {\nstep();\nx = x * 2;\ni = i + 1;\n}\nprint x;\n}\n";

/// `main` calls `middle`, and that `last`. Places: 1 entry of `last`, 2 line 3, 3 out, 4 entry of `middle`, 5 line 6, 6 out, 7 entry of `main`, 8 line 9, a spawn
/// of `middle`, 9 line 10, 10 line 11, 11 out.
pub const CHAIN: &str =
    "shared x;\nfn last() {\nx = 1;\n}\nfn middle() {\nlast();\n}\nfn main() {\nlet t = spawn middle();\nmiddle();\njoin t;\n}\n";

/// `f` returns inside an `if`, and at its end. Places: 1 entry of `f`, 2 line 2, 3 line 3, 4 line 5, 5 out, 6 entry of `main`, 7 line 8, which calls `f`, 8 line 9, 9 out.
pub const RETURNS: &str =
    "fn f(n) {\nif (n) {\nreturn 1;\n}\nreturn 0;\n}\nfn main() {\nlet r = f(1);\nprint r;\n}\n";

/// Conditions that are 0. Places: 1 entry, 2 line 3, 3 line 4, 4 line 5, 5 line 7, 6 the loop of line 9, 7 its back edge, 8 line 10, 9 line 12, 10 out.
pub const NEVER: &str =
    "shared x;\nfn main() {\nskip;\nif (0) {\nx = 1;\n} else {\nskip;\n}\nwhile (0) {\nx = 2;\n}\nskip;\n}\n";

/// `f` calls itself on line 3, `g` and `h` each other on the lines 8 and 11, `s` spawns itself on line 14; `main` calls `f` on line 18 and `g` on line 19.
pub const AGAIN: &str =
    "fn f(n) {\nif (n) {\nf(n - 1);\n}\nskip;\n}\nfn g(n) {\nh(n);\n}\nfn h(n) {\ng(n);\n}\nfn s() {\nlet t = spawn s();\njoin t;\n}\nfn main() {\nf(3);\ng(1);\nskip;\n}\n";
