//! Events as lists of numbers, which are equal where the events are the same.
ghost use Rattle.std.specs.Prelude.{◌≡◌, ◌++◌, OnOk, IfOk};
ghost use Rattle.loom_tree.specs.Tree.{expression_of};
ghost use Rattle.loom_filter.specs.View.{event_of};
ghost use Rattle.loom_filter.specs.Key.{name_key, number_key, expression_key, event_key};

use crate::filter::Event;
use loom_tree::expression::Expr;
use loom_tree::name::{Name, NoMemory};
use std::alloc::Global;

/// Puts a name behind a key: its length, and its bytes.
fn put_name(key: &mut Vec<u64>, name: &Name) -> Result<(), NoMemory>
    ensures { OnOk result (key.new.items ≡ key.old.items ++ name_key name.now) }
{
    let bytes = name.bytes();
    key.push(bytes.len() as u64)?;
    'bytes: for b in bytes {
        key.push(*b as u64)?;
    }
    Ok(())
}

/// Puts a number behind a key: its sign, and how far it is from 0 or from -1.
fn put_number(key: &mut Vec<u64>, n: i64) -> Result<(), NoMemory>
    ensures { OnOk result (key.new.items ≡ key.old.items ++ number_key n) }
{
    if n < 0 {
        key.push(6)?;
        key.push((-(n + 1)) as u64)?;
    } else {
        key.push(0)?;
        key.push(n as u64)?;
    }
    Ok(())
}

/// Puts an expression behind a key: what it is, and then its parts.
fn put_test(key: &mut Vec<u64>, e: &Expr) -> Result<(), NoMemory>
    ensures { OnOk result (key.new.items ≡ key.old.items ++ expression_key (expression_of e.now)) }
{
    match e {
        Expr::Num(n) => put_number(key, *n)?,
        Expr::Var(name) => {
            key.push(1)?;
            put_name(key, name)?;
        }
        Expr::Cell(name, index) => {
            key.push(2)?;
            put_name(key, name)?;
            put_test(key, index)?;
        }
        Expr::Neg(a) => {
            key.push(3)?;
            put_test(key, a)?;
        }
        Expr::Not(a) => {
            key.push(4)?;
            put_test(key, a)?;
        }
        Expr::Bin(op, a, b) => {
            key.push(5)?;
            key.push(*op as u64)?;
            put_test(key, a)?;
            put_test(key, b)?;
        }
    }
    Ok(())
}

/// The key of an event. An `Err` is want of memory.
pub(crate) fn event_key(alloc: Global, event: &Event) -> Result<Vec<u64>, NoMemory>
    ensures { IfOk result (λ key. key.items ≡ event_key (event_of event.now)) }
{
    let mut key = Vec::new(alloc);
    key.push(event.line as u64)?;
    put_name(&mut key, &event.file)?;
    if let Some(test) = &event.test {
        put_test(&mut key, test)?;
    }
    Ok(key)
}
