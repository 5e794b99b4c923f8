//! Why a line of a file is refused.

use crate::count_fault::{CountFault, count_fault, params_fault};
use crate::name_fault::{KnownNames, NameFault, name_fault};
use crate::reason::reason_text;
use crate::refusal_notes::RefusalNote;
use crate::statement::kind_at;
use crate::token_fault::TokenFault;
use loom_lang::locals::locals;
use loom_lang::refusal::{LangRefusal, Reason};
use loom_tree::item::FileItem;
use std::alloc::Global;
use std::fmt;

/// Why a line is refused, as a sentence.
#[derive(Clone, Copy)]
pub enum Explanation<'a> {
    Text(&'static str),
    Token(TokenFault<'a>),
    Name(NameFault<'a>),
    Count(CountFault<'a>),
    Command(RefusalNote),
}

// By the name on that line that isn't known in its role, where it is found and memory doesn't run out.
fn name_at<'a>(alloc: Global, items: &'a [FileItem], line: u32) -> Option<Explanation<'a>> {
    for item in items {
        if let FileItem::Func(f) = item {
            if let Some(kind) = kind_at(&f.body, line) {
                let names = locals(alloc, f).ok()?;
                let known = KnownNames {
                    items,
                    locals: &names.0,
                };
                let fault = name_fault(&known, kind)?;
                return Some(Explanation::Name(fault));
            }
        }
    }
    None
}

// By the wrong number on that line, where it is found.
fn count_at<'a>(items: &'a [FileItem], line: u32) -> Option<Explanation<'a>> {
    for item in items {
        if let FileItem::Func(f) = item {
            if f.line == line
                && let Some(fault) = params_fault(f)
            {
                return Some(Explanation::Count(fault));
            }
            if let Some(kind) = kind_at(&f.body, line) {
                let fault = count_fault(items, kind)?;
                return Some(Explanation::Count(fault));
            }
        }
    }
    None
}

/// Why the items of a file are refused.
pub fn explanation_of<'a>(
    alloc: Global,
    items: &'a [FileItem],
    refusal: LangRefusal,
) -> Explanation<'a> {
    let found = match refusal.reason {
        Reason::UnknownName => name_at(alloc, items, refusal.line),
        Reason::WrongCount => count_at(items, refusal.line),
        _ => None,
    };
    match found {
        Some(explanation) => explanation,
        None => Explanation::Text(reason_text(refusal.reason)),
    }
}

impl fmt::Display for Explanation<'_> {
    fn fmt<W: fmt::Write>(&self, f: &mut fmt::Formatter<W>) -> fmt::Result {
        match self {
            Explanation::Text(text) => write!(f, "{text}"),
            Explanation::Token(fault) => write!(f, "{fault}"),
            Explanation::Name(fault) => write!(f, "{fault}"),
            Explanation::Count(fault) => write!(f, "{fault}"),
            Explanation::Command(note) => write!(f, "{note}"),
        }
    }
}
