//! A wrong number of arguments, or parameters of `main`.

use crate::plain::Plain;
use loom_tree::expression::Exprs;
use loom_tree::item::FileItem;
use loom_tree::name::Name;
use loom_tree::statement::{Func, Kind, Right};
use std::fmt;

/// Why a number is wrong.
#[derive(Clone, Copy)]
pub enum CountFault<'a> {
    /// `main` has so many parameters.
    Main(usize),
    /// A function has so many parameters, and is given so many arguments.
    Call {
        name: &'a [u8],
        params: usize,
        given: usize,
    },
}

/// That of a `fn`.
pub fn params_fault<'a>(f: &'a Func) -> Option<CountFault<'a>> {
    let main: &[u8] = b"main";
    let params = f.params.0.len();
    if f.name.bytes() == main && params != 0 {
        Some(CountFault::Main(params))
    } else {
        None
    }
}

// The number of parameters of the first function of that name; of one that has so many, where there is such a one.
fn params_of(items: &[FileItem], name: &Name, given: usize) -> Option<usize> {
    let mut found = None;
    for item in items {
        if let FileItem::Func(f) = item {
            let params = f.params.0.len();
            if f.name.is(name) && (found.is_none() || params == given) {
                found = Some(params);
            }
        }
    }
    found
}

fn call_fault<'a>(items: &[FileItem], name: &'a Name, es: &Exprs) -> Option<CountFault<'a>> {
    let given = es.0.len();
    match params_of(items, name, given) {
        Some(params) if params != given => Some(CountFault::Call {
            name: name.bytes(),
            params,
            given,
        }),
        _ => None,
    }
}

fn right_fault<'a>(items: &[FileItem], right: &'a Right) -> Option<CountFault<'a>> {
    match right {
        Right::Value(_) => None,
        Right::Call(f, es) => call_fault(items, f, es),
        Right::Spawn(f, es) => call_fault(items, f, es),
    }
}

/// That of a statement, those of its blocks aside.
pub fn count_fault<'a>(items: &[FileItem], kind: &'a Kind) -> Option<CountFault<'a>> {
    match kind {
        Kind::Let(_, right) => right_fault(items, right),
        Kind::Set(_, right) => right_fault(items, right),
        Kind::Call(f, es) => call_fault(items, f, es),
        _ => None,
    }
}

// What stands behind a noun of so many things.
fn ending(count: usize) -> &'static str {
    if count == 1 { "" } else { "s" }
}

impl fmt::Display for CountFault<'_> {
    fn fmt<W: fmt::Write>(&self, f: &mut fmt::Formatter<W>) -> fmt::Result {
        match self {
            CountFault::Main(params) => {
                let s = ending(*params);
                write!(f, "main has {params} parameter{s}, and may have none")
            }
            CountFault::Call {
                name,
                params,
                given,
            } => {
                let name = Plain(*name);
                let s = ending(*params);
                let t = ending(*given);
                write!(
                    f,
                    "\"{name}\" has {params} parameter{s}, and is given {given} argument{t}"
                )
            }
        }
    }
}
