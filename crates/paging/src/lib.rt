// The page desk: add, remove and protect one guest page, list the frames of the guest's pages, and find the first unbacked page. Each
// contract equates answer, storage, number and workspace with desk's definition, for every input, refused input too.
#![tactic(auto)]

ghost use Rattle.std.specs.Prelude.{◌≡◌, true, ◌+◌, ◌≤◌, ◌<◌, length};
ghost use Rattle.desk.specs.Reach.{page_reached};
ghost use Rattle.desk.specs.Extent.{first_page, page_count};
ghost use Rattle.desk.specs.Desk.{storage_after, entangled, change_verdict, change_of, desk_of, list_for, list_of};
ghost use Rattle.desk.specs.Unbacked.{unbacked_of};
ghost use Rattle.survey.specs.Marking.{Tells};
ghost use Rattle.changes.specs.Changing.{FrameFits};
ghost use Rattle.paging.specs.Meeting.{Meets};
ghost use Rattle.paging.specs.Giving.{Gives, Lists, Placed, Ready};

use desk::{Called, Change, Found, Listed};
use machine::{Answer, Guest, Refusal, Verdict};
use tables::{Host, Pages};

const LONG_RECORD: usize = 208;

const FRAME: usize = 4096;

// Whether an entry of these host pages lies in a frame that another page than own names, or in this frame.
fn tables_meet(host: Host, pages: Pages, own: u32, frame: u32) -> bool
    requires { ((pages.from ≤ own) × (own < pages.to)) × (length host.storage.now ≤ 16777216) }
    ensures { Tells (Meets host.entry.designation host.entry.storage.now pages.from pages.to own frame) result }
{
    let mut marks = [false; 4096];
    let marks = &mut marks[..host.storage.len() / FRAME];
    let before = Pages {
        from: pages.from,
        to: own,
    };
    let after = Pages {
        from: own + 1,
        to: pages.to,
    };
    survey::mark_pages(host, before, marks);
    survey::mark_pages(host, after, marks);
    survey::mark_frame(frame as usize, marks);
    survey::entries_marked(host, pages, marks)
}

// Whether the change would leave an entry in a guest frame, or is that of an entry that serves twice.
fn entangled(
    storage: &[u8],
    c: Change,
    designation: u32,
    first: u32,
    pages: u32,
    p: u32,
    place: usize,
) -> bool
    requires { Ready c first pages designation storage.now p place }
    ensures { result ≡ entangled c first pages designation storage.now p }
{
    let own = first + p;
    let host = Host {
        storage,
        designation,
    };
    let extent = Pages {
        from: first,
        to: first + pages,
    };
    let entry = words::word_at(storage, place);
    sharing::shares(host, extent, own, place)
        || tables_meet(host, extent, own, changes::frame_after(c, entry))
}

// The verdict on a change of a page of the extent.
fn change_verdict(
    storage: &[u8],
    c: Change,
    designation: u32,
    first: u32,
    pages: u32,
    p: u32,
) -> Verdict
    requires { Placed first pages storage.now }
    ensures { result ≡ change_verdict c first pages designation storage.now p }
{
    if p >= pages {
        return Err(Refusal::OutOfReach);
    }
    let host = Host {
        storage,
        designation,
    };
    let Some(place) = host.entry_at(first + p) else {
        return Err(Refusal::OutOfReach);
    };
    let valid = tables::says_valid(words::word_at(storage, place));
    changes::state_verdict(c, storage.len() / FRAME, valid)?;
    if entangled(storage, c, designation, first, pages, p, place) {
        return Err(Refusal::Entangled);
    }
    Ok(())
}

// Writes the entry of a host page after the change.
fn put_change(storage: &mut [u8], c: Change, designation: u32, page: u32)
    requires { ((page < 524288) × (length storage.old ≤ 16777216)) × ((page_reached designation storage.old page ≡ true) × FrameFits c) }
    ensures { storage.new ≡ storage_after c designation storage.old page }
{
    let host = Host {
        storage,
        designation,
    };
    let at = host.entry_at(page).unwrap();
    let entry = words::word_at(storage, at);
    words::put_word(storage, at, changes::entry_after(c, entry));
}

// The change of a page of a guest that entry lets through.
fn change_of(
    storage: &mut [u8],
    c: Change,
    guest: Guest,
    designation: u32,
    p: u32,
    number: &mut u32,
) -> Answer<Called>
    requires { Placed (first_page guest) (page_count guest) storage.old }
    ensures { Gives (change_of c guest designation storage.old p number.old) result storage.new number.new }
{
    let extent = Pages::of_extent(guest);
    change_verdict(storage, c, designation, extent.from, extent.count(), p)?;
    put_change(storage, c, designation, extent.from + p);
    *number = changes::number_after(c, *number);
    Ok(Called::Done)
}

// Adds, removes or protects a page of the extent, and counts it.
pub fn change(
    r: &[u8],
    storage: &mut [u8],
    keys: &[u8],
    c: Change,
    designation: u32,
    p: u32,
    number: &mut u32,
) -> Answer<Called>
    ensures { Gives (desk_of c r.now designation storage.old keys.now p number.old) result storage.new number.new }
{
    refusals::desk_verdict(r, storage, keys)?;
    let guest = records::guest_of(r);
    if !entry::entry_good(guest, r.len() == LONG_RECORD) {
        return Ok(Called::Validity);
    }
    change_of(storage, c, guest, designation, p, number)
}

// The listing of a guest that entry lets through.
fn list_for(storage: &[u8], guest: Guest, designation: u32, words: &mut [u32]) -> Answer<Listed>
    requires { first_page guest + page_count guest ≤ 524288 }
    ensures { Lists (list_for guest designation storage.now words.old) result words.new }
{
    let extent = Pages::of_extent(guest);
    if words.len() < extent.count() as usize {
        return Err(Refusal::ShortWorkspace);
    }
    let host = Host {
        storage,
        designation,
    };
    Ok(Listed::Pages(listings::list(host, extent, words)))
}

// Lists the frames of the guest's pages into the words of a workspace, in page order.
pub fn list(
    r: &[u8],
    storage: &[u8],
    keys: &[u8],
    designation: u32,
    words: &mut [u32],
) -> Answer<Listed>
    ensures { Lists (list_of r.now designation storage.now keys.now words.old) result words.new }
{
    refusals::desk_verdict(r, storage, keys)?;
    let guest = records::guest_of(r);
    if !entry::entry_good(guest, r.len() == LONG_RECORD) {
        return Ok(Listed::Validity);
    }
    list_for(storage, guest, designation, words)
}

// Finds the lowest page of the extent, from one up to another, that is not valid.
pub fn first_unbacked(
    r: &[u8],
    storage: &[u8],
    keys: &[u8],
    designation: u32,
    from: u32,
    to: u32,
) -> Answer<Found>
    ensures { result ≡ unbacked_of r.now designation storage.now keys.now from to }
{
    refusals::desk_verdict(r, storage, keys)?;
    let guest = records::guest_of(r);
    if !entry::entry_good(guest, r.len() == LONG_RECORD) {
        return Ok(Found::Validity);
    }
    let host = Host {
        storage,
        designation,
    };
    backing::unbacked_for(host, guest, from, to)
}
