// The listing: the frames of pages, a segment at a time. A segment entry is read once for its pages, and a page entry once. Each
// contract equates with desk's Extent.
#![tactic(auto)]

ghost use Rattle.std.specs.Prelude.{◌≡◌, ℕ, ◌+◌, ◌-◌, ◌≤◌, ◌<◌, length, get_or};
ghost use Rattle.desk.specs.Reach.{page_valid};
ghost use Rattle.desk.specs.Extent.{count_below, words_below, frame_listed, valid_pages, listing};
ghost use Rattle.tables.specs.Tabling.{word_shown};

use tables::{Host, Pages, Span};

// The word of a page that is not valid, in a listing.
const NOT_VALID: u32 = 0xFFFFFFFF;

// A page entry in a listing: the frame of a valid page.
#[tactic(auto, unfolding(tables::specs::Tabling::word_shown))]
fn shown(entry: u32) -> u32
    ensures { result ≡ word_shown entry }
{
    if tables::says_valid(entry) {
        entry / 4096 % 524288
    } else {
        NOT_VALID
    }
}

// Lists the pages of a span, a word each; answers how many are valid.
fn list_span(host: Host, span: Span, words: &mut [u32]) -> u32
    requires { span.from + length words.old ≡ span.to }
    ensures { (result ≡ count_below (length words.old) (λ k. page_valid host.entry.designation host.entry.storage.now (span.from + k)))
        × ((k : ℕ) → k < length words.old → get_or words.new k 0 ≡ frame_listed host.entry.designation host.entry.storage.now (span.from + k)) }
{
    let entries = host.entries_of(span);
    let mut valid = 0;
    for (k, entry) in entries.iter().enumerate() {
        let entry = u32::from_be_bytes(*entry);
        words[k] = shown(entry);
        valid += u32::from(tables::says_valid(entry));
    }
    words[entries.len()..].fill(NOT_VALID);
    valid
}

// Lists the frames of host pages into the first words; answers how many are valid.
pub fn list(host: Host, pages: Pages, words: &mut [u32]) -> u32
    requires { pages.to - pages.from ≤ length words.old }
    ensures { (result ≡ valid_pages pages.from (pages.to - pages.from) host.entry.designation host.entry.storage.now)
        × (words.new ≡ listing pages.from (pages.to - pages.from) host.entry.designation host.entry.storage.now words.old) }
{
    let mut valid = 0;
    for span in pages.spans() {
        let start = (span.from - pages.from) as usize;
        valid += list_span(host, span, &mut words[start..start + span.count()]);
    }
    valid
}
