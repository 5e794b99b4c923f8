//! The first name of a statement that isn't known in its role.

use crate::plain::Plain;
use loom_tree::expression::{Expr, Exprs};
use loom_tree::item::FileItem;
use loom_tree::name::Name;
use loom_tree::statement::{Kind, Right};
use std::fmt;

/// What a name is, or has to be where it stands.
#[derive(Clone, Copy, PartialEq, Eq)]
pub enum Role {
    /// A plain word; where one is wanted, a local too.
    Value,
    Local,
    Array,
    Mutex,
    Sema,
    Function,
}

/// The names that a function knows: those of the file's items, and those of its locals.
#[derive(Clone, Copy)]
pub struct KnownNames<'a> {
    pub items: &'a [FileItem],
    pub locals: &'a [Name],
}

/// A name that isn't known in its role.
#[derive(Clone, Copy)]
pub struct NameFault<'a> {
    name: &'a [u8],
    // what it is
    is: &'static str,
    // what it has to be
    role: Role,
}

fn name_of(item: &FileItem) -> &Name {
    match item {
        FileItem::Word { name, .. } => name,
        FileItem::Mutex { name, .. } => name,
        FileItem::Sema { name, .. } => name,
        FileItem::Func(f) => &f.name,
    }
}

// What the name of an item is, a plain word being a value.
fn role_of(item: &FileItem) -> Role {
    match item {
        FileItem::Word { cells, .. } if cells.is_none() => Role::Value,
        FileItem::Word { .. } => Role::Array,
        FileItem::Mutex { .. } => Role::Mutex,
        FileItem::Sema { .. } => Role::Sema,
        FileItem::Func(_) => Role::Function,
    }
}

fn is_text(role: Role) -> &'static str {
    match role {
        Role::Value => "is a word",
        Role::Local => "is a local",
        Role::Array => "is an array",
        Role::Mutex => "is a mutex",
        Role::Sema => "is a semaphore",
        Role::Function => "is a function",
    }
}

fn wanted_text(role: Role) -> &'static str {
    match role {
        Role::Value => "a local or a word is wanted",
        Role::Local => "a local is wanted, to which what the call or spawn gives goes",
        Role::Array => "an array is wanted",
        Role::Mutex => "a mutex is wanted",
        Role::Sema => "a semaphore is wanted",
        Role::Function => "a function is wanted",
    }
}

fn is_local(known: &KnownNames<'_>, x: &Name) -> bool {
    for local in known.locals {
        if local.is(x) {
            return true;
        }
    }
    false
}

fn is_known(known: &KnownNames<'_>, x: &Name, role: Role) -> bool {
    if role == Role::Value || role == Role::Local {
        if is_local(known, x) {
            return true;
        }
    }
    for item in known.items {
        if name_of(item).is(x) && role_of(item) == role {
            return true;
        }
    }
    false
}

// What the name is, by its first declaration.
fn is_what(known: &KnownNames<'_>, x: &Name) -> &'static str {
    if is_local(known, x) {
        return is_text(Role::Local);
    }
    for item in known.items {
        if name_of(item).is(x) {
            return is_text(role_of(item));
        }
    }
    "isn't known here"
}

fn in_name<'a>(known: &KnownNames<'_>, x: &'a Name, role: Role) -> Option<NameFault<'a>> {
    if is_known(known, x, role) {
        return None;
    }
    Some(NameFault {
        name: x.bytes(),
        is: is_what(known, x),
        role,
    })
}

fn in_expression<'a>(known: &KnownNames<'_>, e: &'a Expr) -> Option<NameFault<'a>> {
    match e {
        Expr::Num(_) => None,
        Expr::Var(x) => in_name(known, x, Role::Value),
        Expr::Cell(x, i) => in_name(known, x, Role::Array).or(in_expression(known, i)),
        Expr::Neg(a) => in_expression(known, a),
        Expr::Not(a) => in_expression(known, a),
        Expr::Bin(_, a, b) => in_expression(known, a).or(in_expression(known, b)),
    }
}

fn in_call<'a>(known: &KnownNames<'_>, f: &'a Name, es: &'a Exprs) -> Option<NameFault<'a>> {
    if let Some(fault) = in_name(known, f, Role::Function) {
        return Some(fault);
    }
    for e in &es.0 {
        if let Some(fault) = in_expression(known, e) {
            return Some(fault);
        }
    }
    None
}

// Of what goes to a local.
fn in_right<'a>(known: &KnownNames<'_>, right: &'a Right) -> Option<NameFault<'a>> {
    match right {
        Right::Value(e) => in_expression(known, e),
        Right::Call(f, es) => in_call(known, f, es),
        Right::Spawn(f, es) => in_call(known, f, es),
    }
}

// What a name has to be to which that goes.
fn role_before(right: &Right) -> Role {
    match right {
        Right::Value(_) => Role::Value,
        Right::Call(_, _) => Role::Local,
        Right::Spawn(_, _) => Role::Local,
    }
}

/// The first fault of a statement, those of its blocks aside.
pub fn name_fault<'a>(known: &KnownNames<'_>, kind: &'a Kind) -> Option<NameFault<'a>> {
    match kind {
        Kind::Let(_, right) => in_right(known, right),
        Kind::Set(x, right) => in_name(known, x, role_before(right)).or(in_right(known, right)),
        Kind::SetCell(x, i, e) => in_name(known, x, Role::Array)
            .or(in_expression(known, i))
            .or(in_expression(known, e)),
        Kind::If(e, _, _) => in_expression(known, e),
        Kind::While(e, _) => in_expression(known, e),
        Kind::Call(f, es) => in_call(known, f, es),
        Kind::Return(None) => None,
        Kind::Return(Some(e)) => in_expression(known, e),
        Kind::Lock(x) => in_name(known, x, Role::Mutex),
        Kind::Unlock(x) => in_name(known, x, Role::Mutex),
        Kind::Down(x) => in_name(known, x, Role::Sema),
        Kind::Up(x) => in_name(known, x, Role::Sema),
        Kind::Join(e) => in_expression(known, e),
        Kind::Print(e) => in_expression(known, e),
        Kind::Skip => None,
    }
}

impl fmt::Display for NameFault<'_> {
    fn fmt<W: fmt::Write>(&self, f: &mut fmt::Formatter<W>) -> fmt::Result {
        let name = Plain(self.name);
        let is = self.is;
        let wanted = wanted_text(self.role);
        write!(f, "\"{name}\" {is}: {wanted}")
    }
}
