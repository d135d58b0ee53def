// The lowest page that is not valid, a segment at a time: a segment entry is read once for its pages, and a page entry once, up to the
// first that says no valid page. Pages whose entries are out of reach need none. Each contract equates with the tests of desk's Reach,
// the last with Unbacked.
#![tactic(auto)]

ghost use Rattle.std.specs.Prelude.{◌≡◌, ◌+◌, ◌≤◌};
ghost use Rattle.desk.specs.Reach.{page_valid};
ghost use Rattle.desk.specs.Extent.{first_page, page_count};
ghost use Rattle.desk.specs.Unbacked.{unbacked_for};
ghost use Rattle.backing.specs.Lowest.{Lowest};

use desk::Found;
use machine::{Answer, Guest, Refusal};
use tables::{Host, Pages, Span};

// The lowest page of a span that is not valid: that of the first entry that says so, or the first whose entry is out of reach.
fn unbacked_in(host: Host, span: Span) -> Option<u32>
    ensures { Lowest (page_valid host.entry.designation host.entry.storage.now) span.from span.to result }
{
    let entries = host.entries_of(span);
    let valid = entries
        .iter()
        .position(|entry| !tables::says_valid(u32::from_be_bytes(*entry)))
        .unwrap_or(entries.len());
    let page = span.from + valid as u32;
    (page < span.to).then_some(page)
}

// The lowest of these host pages that is not valid.
fn first_unbacked(host: Host, pages: Pages) -> Option<u32>
    ensures { Lowest (page_valid host.entry.designation host.entry.storage.now) pages.from pages.to result }
{
    pages.spans().find_map(|span| unbacked_in(host, span))
}

// The lowest page of a guest that entry lets through, from one up to another, that is not valid.
pub fn unbacked_for(host: Host, guest: Guest, from: u32, to: u32) -> Answer<Found>
    requires { first_page guest + page_count guest ≤ 524288 }
    ensures { result ≡ unbacked_for guest host.entry.designation host.entry.storage.now from to }
{
    let extent = Pages::of_extent(guest);
    if to < from || extent.count() < to {
        return Err(Refusal::WrongRange);
    }
    let asked = Pages {
        from: extent.from + from,
        to: extent.from + to,
    };
    match first_unbacked(host, asked) {
        Some(page) => Ok(Found::Page(page - extent.from)),
        None => Ok(Found::None),
    }
}
