// A host's tables, a segment at a time: where the entry of a segment stands, and the entries of its pages that are in reach. Each
// contract equates with the tests of desk's Reach.
#![tactic(auto)]

ghost use Rattle.std.specs.Prelude.{◌≡◌, ℕ, ◌/◌, ◌%◌, ◌+◌, ◌-◌, ◌≤◌, ◌<◌, length, Some};
ghost use Rattle.tables.specs.Tabling.{SegmentAt, SegmentThere, TableAt, Inside, EntriesOf, PageAt, word_valid};

mod spans;

pub use spans::{Pages, Span, Spans, segment_end};
use std::ops::Range;

// A storage, and the designation of the segment table in it.
#[derive(Clone, Copy)]
pub struct Host<'a> {
    pub storage: &'a [u8],
    pub designation: u32,
}

impl<'a> Host<'a> {
    // Where the segment entry of an index stands, in reach.
    pub fn segment_at(self, index: u32) -> Option<usize>
        requires { index < 2048 }
        ensures { SegmentAt self.entry.designation self.entry.storage.now index result }
    {
        let at = (self.designation / 4096 % 524288 * 4096 + index * 4) as usize;
        (index / 16 <= self.designation % 128 && at + 4 <= self.storage.len()).then_some(at)
    }

    // Where the entries of a span's pages stand that are in reach, those of its first pages; the segment entry stands here. So
    // by any designation, and of pages at the same indexes of any segment whose entry stands here.
    pub fn table_at(self, at: usize, span: Span) -> Range<usize>
        requires { at + 4 ≤ length self.storage.now }
        ensures { ((d from to : ℕ) → from % 256 ≡ span.from % 256 → to - from ≡ span.to - span.from
            → SegmentThere d self.entry.storage.now (from / 256) at → TableAt d self.entry.storage.now from to result.start result.end)
            × Inside self.entry.storage.now span.from span.to result.start result.end }
    {
        let entry = words::word_at(self.storage, at);
        let base = (entry / 64 % 33554432 * 64) as usize;
        if entry / 32 % 2 == 1 || entry / 2147483648 % 2 == 1 || self.storage.len() < base {
            return 0..0;
        }
        let limit = ((entry % 16 + 1) as usize * 16).min((self.storage.len() - base) / 4);
        let first = span.index().min(limit);
        let end = (span.index() + span.count()).min(limit);
        base + first * 4..base + end * 4
    }

    // The entries of a span's pages that are in reach, those of its first pages.
    pub fn entries_of(self, span: Span) -> &'a [[u8; 4]]
        ensures { EntriesOf self.entry.designation self.entry.storage.now span.from span.to result.now }
    {
        match self.segment_at(span.segment()) {
            Some(at) => self.storage[self.table_at(at, span)].as_chunks().0,
            None => &[],
        }
    }

    // Where the entry of a page stands, in reach.
    pub fn entry_at(self, page: u32) -> Option<usize>
        requires { page < 524288 }
        ensures { PageAt self.entry.designation self.entry.storage.now page result }
    {
        let span = Span {
            from: page,
            to: page + 1,
        };
        let at = self.segment_at(span.segment())?;
        let table = self.table_at(at, span);
        (!table.is_empty()).then_some(table.start)
    }
}

// Whether a page entry says a valid page.
#[tactic(auto, unfolding(crate::specs::Tabling::word_valid))]
pub fn says_valid(entry: u32) -> bool
    ensures { result ≡ word_valid entry }
{
    entry / 1024 % 2 == 0
        && entry / 2147483648 % 2 == 0
        && entry / 2048 % 2 == 0
        && entry / 256 % 2 == 0
}
