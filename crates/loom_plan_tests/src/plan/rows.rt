//! Filters, and how they are refused for the program of the tests.

/// Texts of filters that are not refused.
pub const FREE: [&str; 10] = [
    "p.lm:4 > p.lm:10",
    // events of an order stand in any functions
    "p.lm:4(p + v * w) > p.lm:13(r)",
    // nested, in both branches and in a loop; a local may be declared anywhere in the function
    "p.lm:6(w) > p.lm:8(w && q) > p.lm:15(!r)",
    "p.lm:5(1) > p.lm:14(-(2))",
    "{p.lm:4, p.lm:6(v); p.lm:10}",
    "{p.lm:4; p.lm:10} <> {p.lm:13; p.lm:15}",
    "{p.lm:13; p.lm:14(r > 1)} <> *",
    "f()(p < q) <> *",
    "main() <> f()",
    "main()(1) <> *",
];

/// Texts of filters that are refused, each with the clause and the number.
pub const REFUSED: [(&str, u8, u8); 51] = [
    // 2: another file, whatever else is wrong with the event
    ("q.lm:4 > p.lm:10", 1, 2),
    ("p.lm:4 > p.l:10", 1, 2),
    ("p.lm:4 > p.lm.:10", 1, 2),
    ("q.lm:3(x) > p.lm:10", 1, 2),
    ("p.lm:3 > p.lm:4(x) > q.lm:10", 1, 2),
    ("{p.lm:4; q.lm:13} <> *", 1, 2),
    // 3: an item, the line of a `fn`, `} else {`, `}` alone, a line behind the text, line 0
    ("p.lm:1 > p.lm:10", 1, 3),
    ("p.lm:3 > p.lm:10", 1, 3),
    ("p.lm:10 > p.lm:7", 1, 3),
    ("p.lm:9 > p.lm:10", 1, 3),
    ("p.lm:11 > p.lm:10", 1, 3),
    ("p.lm:4 > p.lm:16", 1, 3),
    ("p.lm:4 > p.lm:18", 1, 3),
    ("p.lm:4 > p.lm:1000000", 1, 3),
    ("p.lm:3(x) > p.lm:10", 1, 3),
    ("p.lm:4(x) > p.lm:12", 1, 3),
    // 4: a shared word, a cell, a mutex, a function, a local of another function, a name that nothing has
    ("p.lm:4(x) > p.lm:10", 1, 4),
    ("p.lm:4(a[0]) > p.lm:10", 1, 4),
    ("p.lm:4(p + a[p]) > p.lm:10", 1, 4),
    ("p.lm:4(v[0]) > p.lm:10", 1, 4),
    ("p.lm:4 > p.lm:10(m)", 1, 4),
    ("p.lm:4 > p.lm:10(f)", 1, 4),
    ("p.lm:4 > p.lm:8(r)", 1, 4),
    ("p.lm:15(p) > p.lm:10", 1, 4),
    ("p.lm:6(p && (v < -z)) > p.lm:10", 1, 4),
    ("p.lm:6(!x || v) > p.lm:10", 1, 4),
    // a parameter of `f()` is known in it, another local or word isn't
    ("f()(v) <> *", 1, 4),
    ("f()(p + w) <> *", 1, 4),
    ("f()(x) <> *", 1, 4),
    ("main()(r) <> *", 1, 4),
    ("main()(p) <> *", 1, 4),
    // where the function isn't there no name is known
    ("g()(x) <> *", 1, 4),
    ("g()(p) <> *", 1, 4),
    // 6: events of a region in different functions
    ("{p.lm:4; p.lm:13} <> *", 1, 6),
    ("{p.lm:4, p.lm:15; p.lm:10} <> *", 1, 6),
    ("{p.lm:13; p.lm:14, p.lm:8} <> *", 1, 6),
    ("{p.lm:6; p.lm:14, p.lm:8} <> *", 1, 6),
    ("{p.lm:4; p.lm:13(x)} <> *", 1, 4),
    ("{p.lm:3; p.lm:4, p.lm:13} <> *", 1, 3),
    ("{p.lm:4; p.lm:3} <> *", 1, 3),
    // 10: no function of that name
    ("g() <> *", 1, 10),
    ("g()(1) <> *", 1, 10),
    ("x() <> *", 1, 10),
    ("mai() <> *", 1, 10),
    // the least number of all regions of a clause
    ("g() <> f()(v) <> f()", 1, 4),
    ("g() <> {p.lm:4; p.lm:13}", 1, 6),
    ("f() <> f() <> h()", 1, 10),
    // the least clause, though a later one has a lesser number
    ("g() <> *; q.lm:4 > p.lm:10", 1, 10),
    ("f() <> *; p.lm:4(x) > p.lm:3", 2, 3),
    ("f() <> *; f(); f()(w) <> *; h()(x) <> *", 3, 4),
    (
        "f() <> *; f() <> *; f() <> *; f() <> *; f() <> *; f() <> *; f() <> *; p.lm:4 > p.lm:2",
        8,
        3,
    ),
];
