//! A page of text that waits to be put, so that many short pieces go to a sink in few puts.
ghost use Rattle.std.specs.Prelude.{◌≡◌, ◌+◌, ◌-◌, ◌<◌, ◌≤◌, [], ◌∷◌, ◌++◌, length, IsOk, OnOk, OnErr};
ghost use Rattle.std.specs.Io.KnownBytes.{Appends};
ghost use Rattle.loom_io.specs.FaultCount.{Rose};
ghost use Rattle.loom_io.specs.Sink.{TookFront};
ghost use Rattle.loom_io.specs.Page.{PageTook};

use crate::page_text::{PAGE_TEXT_LIMIT, PageText};
use crate::sink::{Sink, SinkFailed};
use crate::whole::put_all;
use std::marker::Model;

/// The most bytes that a page holds.
pub const PAGE_SIZE: usize = 65536;

/// The bytes of a page, 65,536 at most (`PAGE_SIZE`). It takes no memory.
#[derive(Debug, Drop)]
pub struct Page {
    cells: [u8; PAGE_SIZE],
    // how many cells are in use
    len: usize,
}

impl Model for Page {
    ghost use Rattle.std.specs.Prelude.{◌≡◌, ◌≤◌, List, ℕ, length, take};
    ghost use Rattle.loom_io.specs.Page.{page_size};

    ghost Value = { List ℕ };

    ghost view = { λ p. take p.len p.cells };

    ghost invariant = { λ p. (length p.cells ≡ page_size) × (p.len ≤ page_size) };
}

impl Page {
    /// An empty page.
    pub fn new() -> Page
        ensures { result ≡ [] }
    {
        Page {
            cells: [0; PAGE_SIZE],
            len: 0,
        }
    }

    // What the page holds.
    fn bytes(&self) -> &[u8]
        ensures bytes { result.now ≡ self.now }
        ensures most { length result.now ≤ PAGE_SIZE }
    {
        &self.cells[..self.len]
    }

    // How many bytes more the page can hold.
    fn room(&self) -> usize
        ensures { result + length self.now ≡ PAGE_SIZE }
    {
        PAGE_SIZE - self.len
    }

    fn clear(&mut self)
        ensures { self.new ≡ [] }
    {
        self.len = 0;
    }

    fn add(&mut self, piece: &[u8])
        requires { length self.old + length piece.now ≤ PAGE_SIZE }
        ensures { self.new ≡ self.old ++ piece.now }
    {
        let end = self.len + piece.len();
        self.cells[self.len..end].copy_from_slice(piece);
        self.len = end;
    }

    // Adds a text that is made here.
    #[inline(always)]
    fn add_text<T: PageText>(&mut self, text: &T)
        requires { length self.old + PAGE_TEXT_LIMIT ≤ PAGE_SIZE }
        ensures { self.new ≡ self.old ++ T.text text.now }
    {
        self.len = text.write(&mut self.cells, self.len);
    }
}

/// Puts what the page holds, and empties the page. Where the sink fails, it has taken a front of
/// what the page holds, its count of faults rose in this call, and the page stays as it was.
pub fn put_page<K: Sink>(sink: &mut K, page: &mut Page) -> Result<(), SinkFailed>
    ensures later { K.faults sink.old ≤ K.faults sink.new }
    ensures ok { OnOk result (Appends (K.taken sink.old) (K.taken sink.new) page.old) }
    ensures calm { OnOk result (K.faults sink.new ≡ K.faults sink.old) }
    ensures emptied { OnOk result (page.new ≡ []) }
    ensures part { OnErr result (TookFront (K.taken sink.old) (K.taken sink.new) page.old) }
    ensures failed { OnErr result (Rose (K.faults sink.old) (K.faults sink.new)) }
    ensures kept { OnErr result (page.new ≡ page.old) }
{
    put_all(sink, page.bytes())?;
    page.clear();
    Ok(())
}

// Puts the page exactly where it has no room for so many bytes.
fn make_room<K: Sink>(sink: &mut K, page: &mut Page, count: usize) -> Result<(), SinkFailed>
    requires { count ≤ PAGE_SIZE }
    ensures later { K.faults sink.old ≤ K.faults sink.new }
    ensures calm { OnOk result (K.faults sink.new ≡ K.faults sink.old) }
    ensures succeeds { length page.old + count ≤ PAGE_SIZE → IsOk result }
    ensures alone { length page.old + count ≤ PAGE_SIZE → sink.new ≡ sink.old }
    ensures room { length page.old + count ≤ PAGE_SIZE → page.new ≡ page.old }
    ensures full { PAGE_SIZE < length page.old + count → OnOk result (page.new ≡ []) }
    ensures ok { OnOk result (PageTook (K.taken sink.old) (K.taken sink.new) page.old page.new []) }
    ensures part { OnErr result (TookFront (K.taken sink.old) (K.taken sink.new) page.old) }
    ensures failed { OnErr result (Rose (K.faults sink.old) (K.faults sink.new)) }
    ensures kept { OnErr result (page.new ≡ page.old) }
{
    if page.room() < count {
        put_page(sink, page)?;
    }
    Ok(())
}

/// Writes a piece of 65,536 bytes at most to the page. Where the page has room for the piece, the
/// sink isn't asked; where it has none, the page is put first, and then holds the piece alone.
/// Where the sink fails, it has taken a front of what the page holds, its count of faults rose in
/// this call, and the page stays as it was.
pub fn put_paged<K: Sink>(sink: &mut K, page: &mut Page, piece: &[u8]) -> Result<(), SinkFailed>
    requires { length piece.now ≤ PAGE_SIZE }
    ensures later { K.faults sink.old ≤ K.faults sink.new }
    ensures calm { OnOk result (K.faults sink.new ≡ K.faults sink.old) }
    ensures succeeds { length page.old + length piece.now ≤ PAGE_SIZE → IsOk result }
    ensures alone { length page.old + length piece.now ≤ PAGE_SIZE → sink.new ≡ sink.old }
    ensures room { length page.old + length piece.now ≤ PAGE_SIZE → page.new ≡ page.old ++ piece.now }
    ensures full { PAGE_SIZE < length page.old + length piece.now → OnOk result (page.new ≡ piece.now) }
    ensures ok { OnOk result (PageTook (K.taken sink.old) (K.taken sink.new) page.old page.new piece.now) }
    ensures part { OnErr result (TookFront (K.taken sink.old) (K.taken sink.new) (page.old ++ piece.now)) }
    ensures failed { OnErr result (Rose (K.faults sink.old) (K.faults sink.new)) }
    ensures kept { OnErr result (page.new ≡ page.old) }
{
    make_room(sink, page, piece.len())?;
    page.add(piece);
    Ok(())
}

/// Makes a text in the page, and puts the page first where it has no room for as many bytes as such a text may have (`PAGE_TEXT_LIMIT`).
/// Where the sink fails, it has taken a front of what the page holds, its count of faults rose in this call, and the page stays as it was.
#[inline(always)]
pub fn put_page_text<K: Sink, T: PageText>(
    sink: &mut K,
    page: &mut Page,
    text: &T,
) -> Result<(), SinkFailed>
    ensures later { K.faults sink.old ≤ K.faults sink.new }
    ensures ok { OnOk result (PageTook (K.taken sink.old) (K.taken sink.new) page.old page.new (T.text text.now)) }
    ensures calm { OnOk result (K.faults sink.new ≡ K.faults sink.old) }
    ensures part { OnErr result (TookFront (K.taken sink.old) (K.taken sink.new) (page.old ++ T.text text.now)) }
    ensures failed { OnErr result (Rose (K.faults sink.old) (K.faults sink.new)) }
    ensures kept { OnErr result (page.new ≡ page.old) }
{
    make_room(sink, page, PAGE_TEXT_LIMIT)?;
    page.add_text(text);
    Ok(())
}
