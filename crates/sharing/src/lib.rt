// Whether an entry serves twice: as another page's, or as a segment's, among the pages of an extent, a segment at a time.
#![tactic(auto)]

ghost use Rattle.std.specs.Prelude.{◌≡◌, true};
ghost use Rattle.machine.specs.Frames.{page_place};
ghost use Rattle.desk.specs.Reach.{page_reached};
ghost use Rattle.survey.specs.Marking.{SomePage, Tells};
ghost use Rattle.sharing.specs.Sharing.{SharedBy};

use tables::{Host, Pages, Span};

// Whether the entry at this place, that of the host page own, is that of another page or the segment entry of the pages of a span.
// Within its own segment it is no other page's.
fn span_shares(host: Host, span: Span, own: u32, place: usize) -> bool
    requires { (page_reached host.designation host.storage.now own ≡ true) × (page_place host.designation host.storage.now own ≡ place) }
    ensures { Tells (SomePage (SharedBy host.entry.designation host.entry.storage.now own) span.from span.to place) result }
{
    let Some(at) = host.segment_at(span.segment()) else {
        return false;
    };
    let table = host.table_at(at, span);
    at == place
        || own / 256 != span.segment() && table.contains(&place) && (place - table.start) % 4 == 0
}

// So for host pages.
pub fn shares(host: Host, pages: Pages, own: u32, place: usize) -> bool
    requires { (page_reached host.designation host.storage.now own ≡ true) × (page_place host.designation host.storage.now own ≡ place) }
    ensures { Tells (SomePage (SharedBy host.entry.designation host.entry.storage.now own) pages.from pages.to place) result }
{
    pages
        .spans()
        .any(|span| span_shares(host, span, own, place))
}
