//! Writes a journal's text.
ghost use Rattle.std.specs.Prelude.{◌≡◌, ◌≤◌, [], ◌∷◌, ◌++◌, length, map, OnOk, OnErr};
ghost use Rattle.std.specs.Io.KnownBytes.{Appends};
ghost use Rattle.loom_io.specs.FaultCount.{Rose};
ghost use Rattle.loom_io.specs.Sink.{TookFront};
ghost use Rattle.loom_io.specs.Page.{PageTook};
ghost use Rattle.loom_tree.specs.Decimal.{signed_decimal};
ghost use Rattle.loom_tree.specs.Lines.{ended};
ghost use Rattle.loom_trace.specs.Limits.{line_limit};
ghost use Rattle.loom_trace.specs.Text.{entry_line, printed_line, printed_lines, journal_text};

use loom_io::page::{Page, put_page, put_page_text, put_paged};
use loom_io::page_text::PageText;
use loom_io::sink::{Sink, SinkFailed};
use loom_trace::entry::Entry;
use loom_trace::journal::Journal;
use loom_trace::text::{write_entry, write_printed};

// The line of an entry, with what ends it.
#[derive(Drop)]
struct EntryLine {
    entry: Entry,
}

impl PageText for EntryLine {
    ghost text = { λ p. entry_line p.entry ++ 10 ∷ [] };

    #[inline(always)]
    fn write(&self, cells: &mut [u8], at: usize) -> usize {
        let end = write_entry(&self.entry, cells, at);
        cells[end] = b'\n';
        end + 1
    }
}

// The line of a printed value, with what ends it.
#[derive(Drop)]
struct ValueLine {
    value: i64,
}

impl PageText for ValueLine {
    ghost text = { λ p. signed_decimal p.value ++ 10 ∷ [] };

    #[inline(always)]
    fn write(&self, cells: &mut [u8], at: usize) -> usize {
        let end = write_printed(self.value, cells, at);
        cells[end] = b'\n';
        end + 1
    }
}

// Writes a line and what ends it.
fn put_line<K: Sink>(sink: &mut K, page: &mut Page, line: &[u8]) -> Result<(), SinkFailed>
    requires { length line.now ≤ line_limit }
    ensures later { K.faults sink.old ≤ K.faults sink.new }
    ensures ok { OnOk result (PageTook (K.taken sink.old) (K.taken sink.new) page.old page.new (line.now ++ 10 ∷ [])) }
    ensures calm { OnOk result (K.faults sink.new ≡ K.faults sink.old) }
    ensures part { OnErr result (TookFront (K.taken sink.old) (K.taken sink.new) (page.old ++ (line.now ++ 10 ∷ []))) }
    ensures failed { OnErr result (Rose (K.faults sink.old) (K.faults sink.new)) }
{
    put_paged(sink, page, line)?;
    put_paged(sink, page, b"\n")
}

// Writes the line of what an entry prints, where it prints.
fn put_value<K: Sink>(sink: &mut K, page: &mut Page, entry: Entry) -> Result<(), SinkFailed>
    ensures later { K.faults sink.old ≤ K.faults sink.new }
    ensures ok { OnOk result (PageTook (K.taken sink.old) (K.taken sink.new) page.old page.new (ended (printed_line entry))) }
    ensures calm { OnOk result (K.faults sink.new ≡ K.faults sink.old) }
    ensures part { OnErr result (TookFront (K.taken sink.old) (K.taken sink.new) (page.old ++ ended (printed_line entry))) }
    ensures failed { OnErr result (Rose (K.faults sink.old) (K.faults sink.new)) }
{
    if let Entry::Print { value, .. } = entry {
        return put_page_text(sink, page, &ValueLine { value });
    }
    Ok(())
}

// Writes the line of an entry.
fn put_one<K: Sink>(sink: &mut K, page: &mut Page, entry: Entry) -> Result<(), SinkFailed>
    ensures later { K.faults sink.old ≤ K.faults sink.new }
    ensures ok { OnOk result (PageTook (K.taken sink.old) (K.taken sink.new) page.old page.new (ended (entry_line entry ∷ []))) }
    ensures calm { OnOk result (K.faults sink.new ≡ K.faults sink.old) }
    ensures part { OnErr result (TookFront (K.taken sink.old) (K.taken sink.new) (page.old ++ ended (entry_line entry ∷ []))) }
    ensures failed { OnErr result (Rose (K.faults sink.old) (K.faults sink.new)) }
{
    put_page_text(sink, page, &EntryLine { entry })
}

// Writes the lines of what is printed.
fn put_values<K: Sink>(sink: &mut K, page: &mut Page, journal: &Journal) -> Result<(), SinkFailed>
    ensures later { K.faults sink.old ≤ K.faults sink.new }
    ensures ok { OnOk result (PageTook (K.taken sink.old) (K.taken sink.new) page.old page.new (ended (printed_lines journal.now.entries))) }
    ensures calm { OnOk result (K.faults sink.new ≡ K.faults sink.old) }
    ensures part { OnErr result (TookFront (K.taken sink.old) (K.taken sink.new) (page.old ++ ended (printed_lines journal.now.entries))) }
    ensures failed { OnErr result (Rose (K.faults sink.old) (K.faults sink.new)) }
{
    'values: for i in 0..journal.len() {
        put_value(sink, page, journal.get(i))?;
    }
    Ok(())
}

// Writes the lines of the entries.
fn put_entries<K: Sink>(sink: &mut K, page: &mut Page, journal: &Journal) -> Result<(), SinkFailed>
    ensures later { K.faults sink.old ≤ K.faults sink.new }
    ensures ok { OnOk result (PageTook (K.taken sink.old) (K.taken sink.new) page.old page.new (ended (map entry_line journal.now.entries))) }
    ensures calm { OnOk result (K.faults sink.new ≡ K.faults sink.old) }
    ensures part { OnErr result (TookFront (K.taken sink.old) (K.taken sink.new) (page.old ++ ended (map entry_line journal.now.entries))) }
    ensures failed { OnErr result (Rose (K.faults sink.old) (K.faults sink.new)) }
{
    'entries: for i in 0..journal.len() {
        put_one(sink, page, journal.get(i))?;
    }
    Ok(())
}

// Writes the whole text of a journal, in pages, and takes no memory. Where the sink fails, it has
// taken a front of the text, and its count of faults rose in this call.
pub(crate) fn put_journal<K: Sink>(sink: &mut K, journal: &Journal) -> Result<(), SinkFailed>
    ensures later { K.faults sink.old ≤ K.faults sink.new }
    ensures ok { OnOk result (Appends (K.taken sink.old) (K.taken sink.new) (journal_text journal.now.entries)) }
    ensures calm { OnOk result (K.faults sink.new ≡ K.faults sink.old) }
    ensures part { OnErr result (TookFront (K.taken sink.old) (K.taken sink.new) (journal_text journal.now.entries)) }
    ensures failed { OnErr result (Rose (K.faults sink.old) (K.faults sink.new)) }
{
    let mut page = Page::new();
    put_values(sink, &mut page, journal)?;
    put_line(sink, &mut page, b"---")?;
    put_entries(sink, &mut page, journal)?;
    put_page(sink, &mut page)
}
