//! Names of items, and look-ups of names, each in one role.
ghost use Rattle.std.specs.Prelude.{◌≡◌, ◌==◌};
ghost use Rattle.std.specs.Cmp.Lexicographic.{pointwise};
ghost use Rattle.loom_tree.specs.Tree.{item_of, items_of};
ghost use Rattle.loom_lang.specs.Rules.{is_in, is_word, is_array, is_sema, is_function, takes};
ghost use Rattle.loom_lang.specs.FileItems.{source_of_items};
ghost use Rattle.loom_lang.specs.Fault.{names_of, name_of, line_of};

use crate::local::Local;
use loom_tree::item::FileItem;
use loom_tree::name::Name;

/// The name of an item.
pub fn name_of(item: &FileItem) -> &Name
    ensures { result.now ≡ name_of (item_of item.now) }
{
    match item {
        FileItem::Word { name, .. } => name,
        FileItem::Mutex { name, .. } => name,
        FileItem::Sema { name, .. } => name,
        FileItem::Func(f) => &f.name,
    }
}

/// The line on which an item begins.
pub fn line_of(item: &FileItem) -> u32
    ensures { result ≡ line_of (item_of item.now) }
{
    match item {
        FileItem::Word { line, .. } => *line,
        FileItem::Mutex { line, .. } => *line,
        FileItem::Sema { line, .. } => *line,
        FileItem::Func(f) => f.line,
    }
}

/// Whether these are the bytes of a name.
pub fn is_same(x: &Name, bytes: &[u8]) -> bool
    ensures { result ≡ pointwise ◌==◌ x.now bytes.now }
{
    x.0.as_slice() == bytes
}

/// Whether it is one of these names.
pub fn is_in(x: &Name, names: &[Name]) -> bool
    ensures { result ≡ is_in x.now names.now }
{
    'scan: for y in names {
        if is_same(y, x.bytes()) {
            return true;
        }
    }
    false
}

/// Whether it is the name of one of these locals.
pub fn is_local(x: &Name, locals: &[Local]) -> bool
    ensures { result ≡ is_in x.now (names_of locals.now) }
{
    'scan: for d in locals {
        if is_same(&d.name, x.bytes()) {
            return true;
        }
    }
    false
}

/// Whether a plain word has that name.
pub fn is_word(items: &[FileItem], x: &Name) -> bool
    ensures { result ≡ is_word (source_of_items (items_of items.now)).words x.now }
{
    'scan: for item in items {
        if let FileItem::Word { name, cells, .. } = item {
            if is_same(name, x.bytes()) && cells.is_none() {
                return true;
            }
        }
    }
    false
}

/// Whether an array has that name.
pub fn is_array(items: &[FileItem], x: &Name) -> bool
    ensures { result ≡ is_array (source_of_items (items_of items.now)).words x.now }
{
    'scan: for item in items {
        if let FileItem::Word { name, cells, .. } = item {
            if is_same(name, x.bytes()) && cells.is_some() {
                return true;
            }
        }
    }
    false
}

/// Whether a mutex has that name.
pub fn is_mutex(items: &[FileItem], x: &Name) -> bool
    ensures { result ≡ is_in x.now (source_of_items (items_of items.now)).mutexes }
{
    'scan: for item in items {
        if let FileItem::Mutex { name, .. } = item {
            if is_same(name, x.bytes()) {
                return true;
            }
        }
    }
    false
}

/// Whether a semaphore has that name.
pub fn is_sema(items: &[FileItem], x: &Name) -> bool
    ensures { result ≡ is_sema (source_of_items (items_of items.now)).semas x.now }
{
    'scan: for item in items {
        if let FileItem::Sema { name, .. } = item {
            if is_same(name, x.bytes()) {
                return true;
            }
        }
    }
    false
}

/// Whether a function has that name.
pub fn is_function(items: &[FileItem], name: &[u8]) -> bool
    ensures { result ≡ is_function (source_of_items (items_of items.now)).funcs name.now }
{
    'scan: for item in items {
        if let FileItem::Func(f) = item {
            if is_same(&f.name, name) {
                return true;
            }
        }
    }
    false
}

/// Whether a function has that name and `count` parameters.
pub fn takes(items: &[FileItem], name: &[u8], count: usize) -> bool
    ensures { result ≡ takes (source_of_items (items_of items.now)).funcs name.now count }
{
    'scan: for item in items {
        if let FileItem::Func(f) = item {
            if is_same(&f.name, name) && f.params.0.len() == count {
                return true;
            }
        }
    }
    false
}
