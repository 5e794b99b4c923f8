//! The lines of statements at which filters have events.
ghost use Rattle.std.specs.Prelude.{◌≡◌, ◌<◌, ◌%◌, ℕ, true};
ghost use Rattle.loom_trace.specs.Limits.{place_limit};
ghost use Rattle.loom_trace.specs.Places.{has_place};
ghost use Rattle.loom_plan.specs.PlanView.{site_of, watches_of};
ghost use Rattle.loom_version.specs.LineTable.{line_entries, IsInTable, AreInTable};

use loom_plan::plan::{EventSite, EventWatch};
use loom_trace::places::Places;

/// The entry of a line in the table. Lines that differ by a multiple of 8,192 share one.
pub(crate) fn entry_of(line: u32) -> u16
    ensures is { result ≡ line % line_entries }
    ensures within { result < place_limit }
{
    (line % 8192) as u16
}

// The line of an event comes into the table, if it is one at a statement.
fn put_line(table: &mut Places, site: EventSite)
    ensures old { (p : ℕ) → has_place table.old p ≡ true → has_place table.new p ≡ true }
    ensures new { IsInTable table.new (site_of site) }
{
    match site {
        EventSite::Statement(line) => table.put(entry_of(line)),
        EventSite::Function(_) => {}
    }
}

/// So it is with each of these events.
pub(crate) fn put_lines(table: &mut Places, events: &[EventWatch])
    ensures old { (p : ℕ) → has_place table.old p ≡ true → has_place table.new p ≡ true }
    ensures new { AreInTable table.new (watches_of events.now) }
{
    let mut n = events.len();
    'down: while n > 0 {
        n -= 1;
        let event = &events[n];
        put_line(table, event.site);
    }
}
