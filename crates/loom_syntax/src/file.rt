//! Reads a file, token by token.
ghost use Rattle.std.specs.Prelude.{◌≡◌, IfOk};
ghost use Rattle.loom_tree.specs.Tree.{item_of, items_of};
ghost use Rattle.loom_syntax.specs.TokenView.{spot_of};
ghost use Rattle.loom_syntax.specs.File.{value_or_zero, declaration_tree, given_value};
ghost use Rattle.loom_syntax.specs.View.{plain};
ghost use Rattle.loom_syntax.specs.HeadView as head;
ghost use Rattle.loom_syntax.specs.HeadView.{declaration_of, given_of, head_of};
ghost use Rattle.loom_syntax.specs.BlockView as block;
ghost use Rattle.loom_syntax.specs.BlockView.{block_of};
ghost use Rattle.loom_syntax.specs.FileView.{header_of, items_if, reader_if, reader_of};
ghost use Rattle.loom_syntax.specs.FileReader as m;

use crate::block::{BlockNext, BlockReader, begin_block, block_step};
use crate::item::{Declaration, Head, HeadNext, InitialValue, begin_item, head_step};
use crate::token::TokenSpot;
use loom_tree::item::{FileItem, FileItems};
use loom_tree::name::{Name, NoMemory};
use loom_tree::statement::{Func, Names};
use std::alloc::Global;

/// A function up to its block.
#[derive(Drop)]
pub struct Header {
    /// The line of its `fn`, from 1.
    pub line: u32,
    /// Its name.
    pub name: Name,
    /// The names of its parameters, in their order.
    pub params: Vec<Name>,
}

/// Where a reader stands in a file, behind the items before.
#[derive(Drop)]
pub enum FileReader {
    /// An item may follow, or the end.
    Between(Vec<FileItem>),
    /// An item was begun in this line.
    Heading(Vec<FileItem>, u32, Box<Head>),
    /// The block of a function was begun.
    InFunction(Vec<FileItem>, Header, BlockReader),
}

fn first_value(given: InitialValue) -> i64
    ensures { result ≡ given_value (given_of given) }
{
    match given {
        InitialValue::None => 0,
        InitialValue::Plus(n) => n.value as i64,
        InitialValue::Minus(n) => -(n.value as i64),
    }
}

fn first_count(given: Option<u32>) -> u32
    ensures { result ≡ value_or_zero given }
{
    match given {
        None => 0,
        Some(n) => n,
    }
}

fn declared(line: u32, declaration: Declaration) -> FileItem
    ensures { item_of result ≡ declaration_tree line (declaration_of declaration) }
{
    match declaration {
        Declaration::Word(name, first) => FileItem::Word {
            line,
            name,
            cells: None,
            first: first_value(first),
        },
        Declaration::Array(name, cells) => FileItem::Word {
            line,
            name,
            cells: Some(cells),
            first: 0,
        },
        Declaration::Mutex(name) => FileItem::Mutex { line, name },
        Declaration::Sema(name, first) => FileItem::Sema {
            line,
            name,
            first: first_count(first),
        },
    }
}

/// Behind a token of an item up to its block.
fn headed(
    alloc: Global,
    mut items: Vec<FileItem>,
    line: u32,
    next: HeadNext,
) -> Result<FileReader, NoMemory>
    ensures { IfOk result (λ s. reader_of s ≡ m.headed plain (items_of items.items) line (head.next_of next)) }
{
    match next {
        HeadNext::Goes(h) => Ok(FileReader::Heading(items, line, Box::new(alloc, h)?)),
        HeadNext::Declares(d) => {
            items.push(declared(line, d))?;
            Ok(FileReader::Between(items))
        }
        HeadNext::Begins(name, params) => {
            let header = Header { line, name, params };
            Ok(FileReader::InFunction(items, header, begin_block(alloc)))
        }
    }
}

/// Behind a token in the block of a function.
fn insided(
    mut items: Vec<FileItem>,
    header: Header,
    next: BlockNext,
) -> Result<FileReader, NoMemory>
    ensures { IfOk result (λ s. reader_of s ≡ m.insided plain (items_of items.items) (header_of header) (block.next_of next)) }
{
    match next {
        BlockNext::Goes(inside) => Ok(FileReader::InFunction(items, header, inside)),
        BlockNext::Ends(body) => {
            items.push(FileItem::Func(Func {
                name: header.name,
                line: header.line,
                params: Names(header.params),
                body,
            }))?;
            Ok(FileReader::Between(items))
        }
    }
}

fn between_step(
    alloc: Global,
    items: Vec<FileItem>,
    spot: TokenSpot,
) -> Result<Option<FileReader>, NoMemory>
    ensures { IfOk result (λ r. reader_if r ≡ m.feed plain (m.Between (items_of items.items)) (spot_of spot.entry)) }
{
    match begin_item(spot) {
        Some(h) => Ok(Some(FileReader::Heading(items, spot.token.line, Box::new(alloc, h)?))),
        None => Ok(None),
    }
}

fn heading_step(
    alloc: Global,
    items: Vec<FileItem>,
    line: u32,
    h: Box<Head>,
    spot: TokenSpot,
) -> Result<Option<FileReader>, NoMemory>
    ensures { IfOk result (λ r. reader_if r ≡ m.feed plain (m.Heading (items_of items.items) line (head_of h.value)) (spot_of spot.entry)) }
{
    match head_step(alloc, Box::into_inner(h), spot)? {
        Some(next) => Ok(Some(headed(alloc, items, line, next)?)),
        None => Ok(None),
    }
}

fn function_step(
    alloc: Global,
    items: Vec<FileItem>,
    header: Header,
    inside: BlockReader,
    spot: TokenSpot,
) -> Result<Option<FileReader>, NoMemory>
    ensures { IfOk result (λ r. reader_if r ≡ m.feed plain (m.InFunction (items_of items.items) (header_of header) (block_of inside)) (spot_of spot.entry)) }
{
    match block_step(alloc, inside, spot)? {
        Some(next) => Ok(Some(insided(items, header, next)?)),
        None => Ok(None),
    }
}

/// What is behind a token; `None` where it can't follow. An `Err` is want of memory.
pub fn feed(
    alloc: Global,
    reader: FileReader,
    spot: TokenSpot,
) -> Result<Option<FileReader>, NoMemory>
    ensures { IfOk result (λ r. reader_if r ≡ m.feed plain (reader_of reader) (spot_of spot.entry)) }
{
    match reader {
        FileReader::Between(items) => between_step(alloc, items, spot),
        FileReader::Heading(items, line, h) => heading_step(alloc, items, line, h, spot),
        FileReader::InFunction(items, header, inside) => {
            function_step(alloc, items, header, inside, spot)
        }
    }
}

/// The items of a file that ends here; `None` where it can't end.
pub fn finish(reader: FileReader) -> Option<FileItems>
    ensures { items_if result ≡ m.finish (reader_of reader) }
{
    match reader {
        FileReader::Between(items) => Some(FileItems(items)),
        FileReader::Heading(_, _, _) => None,
        FileReader::InFunction(_, _, _) => None,
    }
}
