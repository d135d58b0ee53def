// Host pages, a segment at a time.

ghost use Rattle.std.specs.Prelude.{◌≡◌, ◌+◌, ◌*◌, ◌/◌, ◌%◌, ◌-◌, ◌≤◌, ◌<◌};
ghost use Rattle.std.specs.Iterator.{at_most};

use machine::Guest;

// Pages of a segment, and of a block of origin and extent.
const SEGMENT: u32 = 256;

const BLOCK: u32 = 16;

// Where the pages of a page's segment end, or an earlier end.
pub fn segment_end(page: u32, to: u32) -> u32
    requires { (page < to) × (to ≤ 524288) }
    ensures { (page < result) × ((result ≤ to) × (result ≤ page / 256 * 256 + 256)) }
{
    to.min(page / SEGMENT * SEGMENT + SEGMENT)
}

// Host pages of one segment, from one up to another.
#[derive(Clone, Copy)]
pub struct Span {
    pub from: u32,
    pub to: u32,
    ghost some: { from < to },
    ghost one_segment: { to ≤ from / 256 * 256 + 256 },
    ghost low: { to ≤ 524288 },
}

impl Span {
    // The index of the segment.
    pub fn segment(self) -> u32
        ensures { result ≡ self.from / 256 }
    {
        self.from / SEGMENT
    }

    // The index of the first page in the segment's table.
    pub fn index(self) -> usize
        ensures { result ≡ self.from % 256 }
    {
        (self.from % SEGMENT) as usize
    }

    // How many they are.
    pub fn count(self) -> usize
        ensures { self.from + result ≡ self.to }
    {
        (self.to - self.from) as usize
    }
}

// Host pages, from one up to another.
#[derive(Clone, Copy)]
pub struct Pages {
    pub from: u32,
    pub to: u32,
    ghost order: { from ≤ to },
    ghost low: { to ≤ 524288 },
}

impl Pages {
    ghost use Rattle.desk.specs.Extent.{first_page, page_count};

    // Those of the extent of a guest.
    pub fn of_extent(guest: Guest) -> Pages
        requires { first_page guest + page_count guest ≤ 524288 }
        ensures { (result.from ≡ first_page guest) × (result.to ≡ first_page guest + page_count guest) }
    {
        let from = guest.origin as u32 * BLOCK;
        Pages {
            from,
            to: from + guest.extent as u32 * BLOCK,
        }
    }

    // How many they are.
    pub fn count(self) -> u32
        ensures { self.from + result ≡ self.to }
    {
        self.to - self.from
    }

    // They, a span of each segment.
    pub fn spans(self) -> Spans
        ensures { (result.from ≡ self.from) × (result.to ≡ self.to) }
    {
        Spans {
            from: self.from,
            to: self.to,
        }
    }
}

// Host pages, a span of each segment.
#[derive(Drop)]
pub struct Spans {
    pub from: u32,
    pub to: u32,
    ghost low: { to ≤ 524288 },
}

impl Iterator for Spans {
    ghost use Rattle.tables.specs.Spanning.{SpanTaken};

    type Item = Span;

    ghost next_gives = { SpanTaken };

    ghost remaining = { λ s. at_most (s.to - s.from) };

    fn next(&mut self) -> Option<Span> {
        if self.to <= self.from {
            return None;
        }
        let from = self.from;
        self.from = segment_end(from, self.to);
        Some(Span {
            from,
            to: self.from,
        })
    }
}
