// The marks on the frames that valid pages name, and whether an entry lies in a marked frame, a segment at a time. A segment entry is
// read once for its pages, and a page entry once. Each contract goes by the tests of desk's Reach and Extent.
#![tactic(auto)]

ghost use Rattle.std.specs.Prelude.{◌≡◌, ◌/◌, ◌≤◌, cond, true, false, length, get_or, set};
ghost use Rattle.machine.specs.Refusals.{frames_of};
ghost use Rattle.machine.specs.Sizes.{frame_bytes};
ghost use Rattle.machine.specs.Walk.{frame_of};
ghost use Rattle.tables.specs.Tabling.{word_valid};
ghost use Rattle.survey.specs.Marking.{Added, Names, SomePage, Tells, EntryMarked};

use tables::{Host, Pages, Span};

const FRAME: usize = 4096;

// Marks a frame, if it is one of those with marks.
pub fn mark_frame(frame: usize, marks: &mut [bool])
    ensures { marks.new ≡ set marks.old frame true }
{
    if frame < marks.len() {
        marks[frame] = true;
    }
}

// Marks the frame that a valid page names, by its entry.
fn mark_named(entry: u32, marks: &mut [bool])
    ensures { marks.new ≡ cond (word_valid entry) (set marks.old (frame_of entry) true) marks.old }
{
    if tables::says_valid(entry) {
        mark_frame((entry / 4096 % 524288) as usize, marks);
    }
}

// Marks the frames of the storage that valid pages of a span name.
fn mark_span(host: Host, span: Span, marks: &mut [bool])
    requires { length marks.old ≡ frames_of host.storage.now }
    ensures { Added (SomePage (Names host.entry.designation host.entry.storage.now) span.from span.to) marks.old marks.new }
{
    for entry in host.entries_of(span) {
        mark_named(u32::from_be_bytes(*entry), marks);
    }
}

// So for host pages. Marks behind those of the storage's frames stay.
pub fn mark_pages(host: Host, pages: Pages, marks: &mut [bool])
    requires { frames_of host.storage.now ≤ length marks.old }
    ensures { Added (SomePage (Names host.entry.designation host.entry.storage.now) pages.from pages.to) marks.old marks.new }
{
    let marks = &mut marks[..host.storage.len() / FRAME];
    for span in pages.spans() {
        mark_span(host, span, marks);
    }
}

// Whether the frame of a place is marked.
fn marked(marks: &[bool], place: usize) -> bool
    ensures { result ≡ get_or marks.now (place / frame_bytes) false }
{
    marks.get(place / FRAME).copied().unwrap_or(false)
}

// Whether an entry of a span, in reach, lies in a marked frame: its segment's, or one of its pages', of which the first and the last
// tell.
fn span_marked(host: Host, span: Span, marks: &[bool]) -> bool
    ensures { Tells (EntryMarked host.entry.designation host.entry.storage.now span.from span.to marks.now) result }
{
    let Some(at) = host.segment_at(span.segment()) else {
        return false;
    };
    let table = host.table_at(at, span);
    marked(marks, at)
        || !table.is_empty() && (marked(marks, table.start) || marked(marks, table.end - 4))
}

// So for host pages.
pub fn entries_marked(host: Host, pages: Pages, marks: &[bool]) -> bool
    ensures { Tells (EntryMarked host.entry.designation host.entry.storage.now pages.from pages.to marks.now) result }
{
    pages.spans().any(|span| span_marked(host, span, marks))
}
