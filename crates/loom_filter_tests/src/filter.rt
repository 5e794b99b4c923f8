//! Texts of filters, and what they are or why they are refused.

mod rows;

use loom_filter::filter::{Clause, Event, Events, Filter, Region, Step};
use loom_filter::parse::{FilterError, FilterRefusal, parse_filter};
use loom_tree::expression::{Expr, Op};
use loom_tree::name::{Name, NoMemory};
use rows::{
    BEGINNINGS, BYTES, COUNTS, FILTERS, FUNCTIONS, LATER, REGIONS, Row, STEPS, TESTS, TWINS,
};
use std::alloc::Global;
use std::test::Fail;

/// How many bytes a text has at most.
const TEXT_LIMIT: usize = 65536;

/// The filter of a text; the clause and the number are 0 where it is too long.
fn read(alloc: Global, text: &[u8]) -> Result<Filter, FilterError> {
    if text.len() > TEXT_LIMIT {
        let refusal = FilterRefusal {
            clause: 0,
            number: 0,
        };
        return Err(FilterError::Refused(refusal));
    }
    parse_filter(alloc, text)
}

/// How a text is refused; `None` where it is a filter's.
fn refusal(alloc: Global, text: &[u8]) -> Result<Option<(u8, u8)>, NoMemory> {
    match read(alloc, text) {
        Ok(_) => Ok(None),
        Err(FilterError::Refused(refusal)) => Ok(Some((refusal.clause, refusal.number))),
        Err(FilterError::NoMemory) => Err(NoMemory),
    }
}

fn put(out: &mut Vec<u8>, text: &str) -> Result<(), NoMemory> {
    out.extend_from_slice(text.as_bytes())?;
    Ok(())
}

fn put_number(alloc: Global, out: &mut Vec<u8>, n: u64) -> Result<(), NoMemory> {
    put(out, format!(in alloc; "{n}")?.as_str())
}

fn sign(op: Op) -> &'static str {
    match op {
        Op::Or => "||",
        Op::And => "&&",
        Op::Eq => "==",
        Op::Ne => "!=",
        Op::Lt => "<",
        Op::Le => "<=",
        Op::Gt => ">",
        Op::Ge => ">=",
        Op::Add => "+",
        Op::Sub => "-",
        Op::Mul => "*",
        Op::Div => "/",
        Op::Rem => "%",
    }
}

fn put_test(alloc: Global, out: &mut Vec<u8>, e: &Expr) -> Result<(), NoMemory> {
    match e {
        Expr::Num(n) => put(out, format!(in alloc; "{n}")?.as_str())?,
        Expr::Var(name) => out.extend_from_slice(name.bytes())?,
        Expr::Cell(name, index) => {
            out.extend_from_slice(name.bytes())?;
            put(out, "[")?;
            put_test(alloc, out, index)?;
            put(out, "]")?;
        }
        Expr::Neg(a) => {
            put(out, "-")?;
            put_test(alloc, out, a)?;
        }
        Expr::Not(a) => {
            put(out, "!")?;
            put_test(alloc, out, a)?;
        }
        Expr::Bin(op, a, b) => {
            put(out, "(")?;
            put_test(alloc, out, a)?;
            put(out, sign(*op))?;
            put_test(alloc, out, b)?;
            put(out, ")")?;
        }
    }
    Ok(())
}

fn put_tested(alloc: Global, out: &mut Vec<u8>, test: &Option<Expr>) -> Result<(), NoMemory> {
    if let Some(e) = test {
        put(out, "(")?;
        put_test(alloc, out, e)?;
        put(out, ")")?;
    }
    Ok(())
}

fn put_event(alloc: Global, out: &mut Vec<u8>, event: &Event) -> Result<(), NoMemory> {
    out.extend_from_slice(event.file.bytes())?;
    put(out, ":")?;
    put_number(alloc, out, event.line as u64)?;
    put_tested(alloc, out, &event.test)
}

/// The steps, with `>` behind each.
fn put_steps(alloc: Global, out: &mut Vec<u8>, steps: &[Step]) -> Result<(), NoMemory> {
    for step in steps {
        put_event(alloc, out, &step.event)?;
        put(out, "{")?;
        put_number(alloc, out, step.count as u64)?;
        put(out, "}>")?;
    }
    Ok(())
}

/// The events, with `,` behind each.
fn put_events(alloc: Global, out: &mut Vec<u8>, events: &[Event]) -> Result<(), NoMemory> {
    for event in events {
        put_event(alloc, out, event)?;
        put(out, ",")?;
    }
    Ok(())
}

fn put_region(alloc: Global, out: &mut Vec<u8>, region: &Region) -> Result<(), NoMemory> {
    match region {
        Region::Between(entries, exits) => {
            put(out, "{")?;
            put_events(alloc, out, &entries.0)?;
            out.pop();
            put(out, ";")?;
            put_events(alloc, out, &exits.0)?;
            out.pop();
            put(out, "}")
        }
        Region::Whole(function, test) => {
            out.extend_from_slice(function.bytes())?;
            put(out, "()")?;
            put_tested(alloc, out, test)
        }
    }
}

/// The regions, with `<>` behind each.
fn put_regions(alloc: Global, out: &mut Vec<u8>, regions: &[Region]) -> Result<(), NoMemory> {
    for region in regions {
        put_region(alloc, out, region)?;
        put(out, "<>")?;
    }
    Ok(())
}

fn put_clause(alloc: Global, out: &mut Vec<u8>, clause: &Clause) -> Result<(), NoMemory> {
    match clause {
        Clause::Order(steps) => {
            put_steps(alloc, out, &steps.0)?;
            out.pop();
        }
        Clause::Exclusive(regions) => {
            put_regions(alloc, out, &regions.0)?;
            out.pop();
            out.pop();
        }
        Clause::Unilateral(region) => {
            put_region(alloc, out, region)?;
            put(out, "<>*")?;
        }
    }
    Ok(())
}

/// A filter in a text of its own, without blanks.
fn shown(alloc: Global, filter: &Filter) -> Result<Vec<u8>, NoMemory> {
    let mut out = Vec::new(alloc);
    for clause in &filter.clauses.0 {
        put_clause(alloc, &mut out, clause)?;
        put(&mut out, ";")?;
    }
    out.pop();
    Ok(out)
}

fn is_refused(alloc: Global, text: &[u8], clause: u8, number: u8) -> Result<bool, NoMemory> {
    match refusal(alloc, text)? {
        Some((c, n)) => Ok(c == clause && n == number),
        None => Ok(false),
    }
}

/// The first row of which something else is told, and what.
fn first_wrong(alloc: Global, rows: &[Row]) -> Result<Option<(usize, Option<(u8, u8)>)>, NoMemory> {
    for (i, (text, clause, number)) in rows.iter().enumerate() {
        let told = refusal(alloc, text)?;
        if told != Some((*clause, *number)) {
            return Ok(Some((i, told)));
        }
    }
    Ok(None)
}

#[test]
fn refuses_beginnings(rt: HostRuntime) -> Result<(), Fail> {
    assert_eq!(rt; first_wrong(rt.alloc(), &BEGINNINGS)?, None);
    Ok(())
}

#[test]
fn refuses_steps(rt: HostRuntime) -> Result<(), Fail> {
    assert_eq!(rt; first_wrong(rt.alloc(), &STEPS)?, None);
    Ok(())
}

#[test]
fn refuses_bytes(rt: HostRuntime) -> Result<(), Fail> {
    assert_eq!(rt; first_wrong(rt.alloc(), &BYTES)?, None);
    Ok(())
}

#[test]
fn refuses_tests(rt: HostRuntime) -> Result<(), Fail> {
    assert_eq!(rt; first_wrong(rt.alloc(), &TESTS)?, None);
    Ok(())
}

#[test]
fn refuses_functions(rt: HostRuntime) -> Result<(), Fail> {
    assert_eq!(rt; first_wrong(rt.alloc(), &FUNCTIONS)?, None);
    Ok(())
}

#[test]
fn refuses_regions(rt: HostRuntime) -> Result<(), Fail> {
    assert_eq!(rt; first_wrong(rt.alloc(), &REGIONS)?, None);
    Ok(())
}

#[test]
fn refuses_later(rt: HostRuntime) -> Result<(), Fail> {
    assert_eq!(rt; first_wrong(rt.alloc(), &LATER)?, None);
    Ok(())
}

#[test]
fn refuses_counts(rt: HostRuntime) -> Result<(), Fail> {
    assert_eq!(rt; first_wrong(rt.alloc(), &COUNTS)?, None);
    Ok(())
}

#[test]
fn refuses_twins(rt: HostRuntime) -> Result<(), Fail> {
    assert_eq!(rt; first_wrong(rt.alloc(), &TWINS)?, None);
    Ok(())
}

#[test]
fn reads_filters(rt: HostRuntime) -> Result<(), Fail> {
    for (text, tree) in FILTERS {
        let told = refusal(rt.alloc(), text)?;
        assert_eq!(rt; (text, told), (text, None));
        if let Ok(filter) = read(rt.alloc(), text) {
            let shown = shown(rt.alloc(), &filter)?;
            assert_eq!(rt; shown.as_slice(), tree.as_bytes());
        }
    }
    Ok(())
}

/// `text` so many times.
fn times(alloc: Global, n: usize, text: &[u8]) -> Result<Vec<u8>, NoMemory> {
    let mut all = Vec::new(alloc);
    for _ in 0..n {
        all.extend_from_slice(text)?;
    }
    Ok(all)
}

/// An order of events on the lines from `first` to `last`.
fn order(alloc: Global, first: u32, last: u32) -> Result<Vec<u8>, NoMemory> {
    let mut all = Vec::new(alloc);
    for line in first..=last {
        put(&mut all, "a:")?;
        put_number(alloc, &mut all, line as u64)?;
        put(&mut all, ">")?;
    }
    all.pop();
    Ok(all)
}

fn all_of(alloc: Global, parts: &[&[u8]]) -> Result<Vec<u8>, NoMemory> {
    let mut all = Vec::new(alloc);
    for part in parts {
        all.extend_from_slice(part)?;
    }
    Ok(all)
}

/// `text` so many times, between a front and an end.
fn between(
    alloc: Global,
    front: &[u8],
    n: usize,
    text: &[u8],
    end: &[u8],
) -> Result<Vec<u8>, NoMemory> {
    let middle = times(alloc, n, text)?;
    all_of(alloc, &[front, &middle, end])
}

/// The 33rd event, in each kind of clause and behind others.
#[test]
fn counts_events(rt: HostRuntime) -> Result<(), Fail> {
    let alloc = rt.alloc();
    let fits = order(alloc, 1, 32)?;
    assert_eq!(rt; refusal(alloc, &fits)?, None);
    let beyond = order(alloc, 1, 33)?;
    assert!(rt; is_refused(alloc, &beyond, 1, 13)?);
    let twin = all_of(alloc, &[&beyond, b">a:1"])?;
    assert!(rt; is_refused(alloc, &twin, 1, 9)?);
    let count = all_of(alloc, &[&twin, b"{1}"])?;
    assert!(rt; is_refused(alloc, &count, 1, 5)?);
    let faulty = all_of(alloc, &[&beyond, b";a:1>a:1;a:1>b:1{1}"])?;
    assert!(rt; is_refused(alloc, &faulty, 1, 13)?);
    let second = all_of(alloc, &[&fits, b";f();a:1>b:1{1}"])?;
    assert!(rt; is_refused(alloc, &second, 2, 13)?);
    let front = order(alloc, 1, 31)?;
    let nearly = all_of(alloc, &[&front, b";f()"])?;
    assert_eq!(rt; refusal(alloc, &nearly)?, None);
    let third = all_of(alloc, &[&nearly, b";f()<>*"])?;
    assert!(rt; is_refused(alloc, &third, 3, 13)?);
    Ok(())
}

/// The 33rd event of regions.
#[test]
fn counts_events_of_regions(rt: HostRuntime) -> Result<(), Fail> {
    let alloc = rt.alloc();
    let many = times(alloc, 31, b"f()<>")?;
    let functions = all_of(alloc, &[&many, b"f()"])?;
    assert_eq!(rt; refusal(alloc, &functions)?, None);
    let more = all_of(alloc, &[&functions, b"<>f()"])?;
    assert!(rt; is_refused(alloc, &more, 1, 13)?);
    let thirty = times(alloc, 30, b"a:1,")?;
    let entries = all_of(alloc, &[b"{", &thirty, b"a:1;b:1}"])?;
    assert_eq!(rt; refusal(alloc, &entries)?, None);
    let one_more = all_of(alloc, &[&entries, b";f()"])?;
    assert!(rt; is_refused(alloc, &one_more, 2, 13)?);
    let more_exits = times(alloc, 31, b"a:1,")?;
    let exits = all_of(alloc, &[b"{a:1;", &more_exits, b"b:1}<>*"])?;
    assert!(rt; is_refused(alloc, &exits, 1, 13)?);
    Ok(())
}

/// An order of two events, the first with a test between these.
fn tested(
    alloc: Global,
    n: usize,
    before: &[u8],
    test: &[u8],
    after: &[u8],
) -> Result<Vec<u8>, NoMemory> {
    let front = times(alloc, n, before)?;
    let back = times(alloc, n, after)?;
    all_of(alloc, &[b"a:1(", &front, test, &back, b")>b:2"])
}

/// 128 nodes, and 128 parentheses and signs one in the other, and one more of each.
#[test]
fn limits_tests(rt: HostRuntime) -> Result<(), Fail> {
    let alloc = rt.alloc();
    let front = times(alloc, 63, b"p+")?;
    let sum = all_of(alloc, &[&front, b"p"])?;
    assert_eq!(rt; refusal(alloc, &tested(alloc, 1, b"-", &sum, b"")?)?, None);
    assert!(rt; is_refused(alloc, &tested(alloc, 2, b"-", &sum, b"")?, 1, 1)?);
    assert_eq!(rt;
        refusal(alloc, &tested(alloc, 128, b"(", b"p", b")")?)?,
        None
    );
    assert!(rt; is_refused(alloc, &tested(alloc, 129, b"(", b"p", b")")?, 1, 1)?);
    assert_eq!(rt;
        refusal(alloc, &tested(alloc, 127, b"!", b"p", b"")?)?,
        None
    );
    assert!(rt; is_refused(alloc, &tested(alloc, 128, b"!", b"p", b"")?, 1, 1)?);
    Ok(())
}

/// Texts of 65,536 bytes.
#[test]
fn reads_the_longest_texts(rt: HostRuntime) -> Result<(), Fail> {
    let alloc = rt.alloc();
    let blank = between(alloc, b"f()", 65533, b" ", b"")?;
    assert_eq!(rt; refusal(alloc, &blank)?, None);
    let tail = between(alloc, b"f();", 65532, b" ", b"")?;
    assert!(rt; is_refused(alloc, &tail, 2, 1)?);
    let empty = times(alloc, 65536, b"\t")?;
    assert!(rt; is_refused(alloc, &empty, 1, 1)?);
    let clauses = times(alloc, 16384, b"f();")?;
    assert!(rt; is_refused(alloc, &clauses, 9, 1)?);
    let whole = between(alloc, b"", 16383, b"f();", b"f() ")?;
    assert!(rt; is_refused(alloc, &whole, 9, 13)?);
    Ok(())
}

/// Words and tests in texts of 65,536 bytes.
#[test]
fn reads_the_longest_words(rt: HostRuntime) -> Result<(), Fail> {
    let alloc = rt.alloc();
    let open = between(alloc, b"a:1 ", 65532, b"(", b"")?;
    assert!(rt; is_refused(alloc, &open, 1, 1)?);
    let zeros = between(alloc, b"a:", 65529, b"0", b"7>b:2")?;
    assert_eq!(rt; refusal(alloc, &zeros)?, None);
    let file = between(alloc, b"", 65530, b"a", b":7>b:2")?;
    assert_eq!(rt; refusal(alloc, &file)?, None);
    Ok(())
}

/// Orders of more than 7,000 events.
#[test]
fn compares_many_events(rt: HostRuntime) -> Result<(), Fail> {
    let alloc = rt.alloc();
    let distinct = order(alloc, 10000, 18000)?;
    assert!(rt; is_refused(alloc, &distinct, 1, 13)?);
    let twin = all_of(alloc, &[&distinct, b">a:18000"])?;
    assert!(rt; is_refused(alloc, &twin, 1, 9)?);
    Ok(())
}
