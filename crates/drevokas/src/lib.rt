// The public operations: check a record, translate one guest address, run; add, remove and protect a guest page, list the pages, find the
// first unbacked one. No operation has a requires; each contract equates the answer, and all that the operation may write, with the
// definition of machine's Operations or of desk's Desk and Unbacked, for every input, refused input too, packed as packing's specs/Packing
// says. Crate drevokas_c exports them to C.
#![tactic(auto)]

ghost use Rattle.std.specs.Prelude.{◌≡◌};
ghost use Rattle.machine.specs.Refusals.{run_verdict};
ghost use Rattle.machine.specs.Host.{host};
ghost use Rattle.machine.specs.Operations.{check, translate, run_as};
ghost use Rattle.inspections.specs.Inspecting.{packed_check, packed_translation, place_after};
ghost use Rattle.replies.specs.Replying.{packed_found, place_after_found};
ghost use Rattle.drevokas.specs.Giving.{Gives, RunGives, DeskGives, ListGives};
ghost use Rattle.desk.specs.Desk.{desk_of, list_of};
ghost use Rattle.desk.specs.Unbacked.{unbacked_of};

use desk::Change;
use machine::{Answer, End, Numbers, Reason, Refusal, Stopped, Verdict};
use records::Ticks;

// The lengths of the two records.
const RECORD: usize = 200;

const LONG_RECORD: usize = 208;

// Checks a record: good, code 32 or refused.
pub fn drevokas_check(r: &[u8]) -> u64
    ensures { result ≡ packed_check (check r.now) }
{
    inspections::pack_check(inspect::check(r))
}

// Translates one guest address: the host absolute address, code 32, a guest program exception, a host fault, or refused.
pub fn drevokas_translate(
    r: &[u8],
    storage: &[u8],
    keys: &[u8],
    designation: u32,
    a: u32,
    kind: u32,
    place: &mut u64,
) -> u64
    ensures { (result ≡ packed_translation (translate r.now (host designation storage.now keys.now) a kind))
        × (place.new ≡ place_after (translate r.now (host designation storage.now keys.now) a kind) place.old) }
{
    if r.len() < RECORD {
        return inspections::pack_translation(Err(Refusal::WrongLength));
    }
    if r.len() == RECORD {
        if let Err(refusal) = refusals::short_translate_verdict(r, storage, keys, kind) {
            return inspections::pack_translation(Err(refusal));
        }
    } else {
        if let Err(refusal) = refusals::translate_verdict(r, storage, keys, kind) {
            return inspections::pack_translation(Err(refusal));
        }
    }
    inspect::translate_accepted(r, storage, keys, designation, a, kind, place)
}

// run, once the verdict is known: refused; entry fails; or the guest runs, and the record gets its state, its timer and the results.
fn run_as(
    r: &mut [u8],
    storage: &mut [u8],
    keys: &mut [u8],
    n: Numbers,
    v: Verdict,
) -> Answer<Stopped>
    requires { v ≡ run_verdict n r.old storage.old keys.old }
    ensures { Gives (run_as n r.old storage.old keys.old v) result r.new storage.new keys.new }
{
    v?;
    let guest = records::guest_of(r);
    if !entry::entry_good(guest, r.len() == LONG_RECORD) {
        let end = End::Intercepted(Reason::Validity);
        records::put_results(r, end);
        return Ok(Stopped { end, units: 0 });
    }
    let timed = interval::active(guest);
    let start = records::cpu_of(r);
    let ticks = records::ticks_in(r, timed).unwrap_or_default();
    let ended = run::run(
        storage,
        keys,
        n.designation,
        guest,
        n.clock,
        n.time,
        n.budget,
        start,
        ticks.request,
        ticks.residue,
    );
    let cpu = ended.cpu;
    let end = ended.end;
    records::put_cpu(r, cpu);
    let after = Ticks {
        request: ended.request,
        residue: ended.residue,
    };
    records::put_ticks(r, timed.then_some(after));
    records::put_results(r, end);
    Ok(Stopped {
        end,
        units: ended.units,
    })
}

// Runs a guest for at most budget units: intercepted, a host fault, budget used, or refused.
pub fn drevokas_run(
    r: &mut [u8],
    storage: &mut [u8],
    keys: &mut [u8],
    designation: u32,
    clock: u64,
    time: u32,
    budget: u32,
    place: &mut u64,
) -> u64
    ensures { RunGives (record { designation = designation; clock = clock; time = time; budget = budget }) r.old storage.old keys.old place.old
        result r.new storage.new keys.new place.new }
{
    let n = Numbers {
        designation,
        clock,
        time,
        budget,
    };
    let v = refusals::run_verdict(n, r, storage, keys);
    let a = run_as(r, storage, keys, n, v);
    let table = inspect::table_of(storage, designation, a);
    *place = packing::place_after_run(a, table, *place);
    packing::pack_answer(a, table)
}

// Adds a guest page with a frame: done, code 32, or refused. The number of valid pages is one more where it is done.
pub fn drevokas_add_page(
    r: &[u8],
    storage: &mut [u8],
    keys: &[u8],
    designation: u32,
    page: u32,
    frame: u32,
    valid: &mut u32,
) -> u64
    ensures { DeskGives (desk_of (Change.Add frame) r.now designation storage.old keys.now page valid.old) result storage.new valid.new }
{
    replies::pack_call(paging::change(
        r,
        storage,
        keys,
        Change::Add(frame),
        designation,
        page,
        valid,
    ))
}

// Removes a guest page: done, code 32, or refused. The number of valid pages is one less where it is done.
pub fn drevokas_remove_page(
    r: &[u8],
    storage: &mut [u8],
    keys: &[u8],
    designation: u32,
    page: u32,
    valid: &mut u32,
) -> u64
    ensures { DeskGives (desk_of Change.Remove r.now designation storage.old keys.now page valid.old) result storage.new valid.new }
{
    replies::pack_call(paging::change(r, storage, keys, Change::Remove, designation, page, valid))
}

// Protects a guest page: done, code 32, or refused. The number of valid pages stays.
pub fn drevokas_protect_page(
    r: &[u8],
    storage: &mut [u8],
    keys: &[u8],
    designation: u32,
    page: u32,
    valid: &mut u32,
) -> u64
    ensures { DeskGives (desk_of Change.Protect r.now designation storage.old keys.now page valid.old) result storage.new valid.new }
{
    replies::pack_call(paging::change(r, storage, keys, Change::Protect, designation, page, valid))
}

// Lists the frames of the guest's pages, a word each: done with the number of valid pages, code 32, or refused.
pub fn drevokas_list_pages(
    r: &[u8],
    storage: &[u8],
    keys: &[u8],
    designation: u32,
    frames: &mut [u32],
) -> u64
    ensures { ListGives (list_of r.now designation storage.now keys.now frames.old) result frames.new }
{
    replies::pack_listing(paging::list(r, storage, keys, designation, frames))
}

// Finds the lowest guest page from one up to another that is not valid: its number, none, code 32, or refused.
pub fn drevokas_first_unbacked(
    r: &[u8],
    storage: &[u8],
    keys: &[u8],
    designation: u32,
    from: u32,
    to: u32,
    place: &mut u64,
) -> u64
    ensures { (result ≡ packed_found (unbacked_of r.now designation storage.now keys.now from to))
        × (place.new ≡ place_after_found (unbacked_of r.now designation storage.now keys.now from to) place.old) }
{
    let found = paging::first_unbacked(r, storage, keys, designation, from, to);
    *place = replies::place_after_found(found, *place);
    replies::pack_found(found)
}
