// The public operations for C. A static library is of no use to another crate, so each stands in crate drevokas, and is exported here under
// its own name with the same contract. The header is include/drevokas.h.
#![tactic(auto)]

ghost use Rattle.std.specs.Prelude.{◌≡◌};
ghost use Rattle.machine.specs.Host.{host};
ghost use Rattle.machine.specs.Operations.{check, translate};
ghost use Rattle.inspections.specs.Inspecting.{packed_check, packed_translation, place_after};
ghost use Rattle.replies.specs.Replying.{packed_found, place_after_found};
ghost use Rattle.drevokas.specs.Giving.{RunGives, DeskGives, ListGives};
ghost use Rattle.desk.specs.Desk.{desk_of, list_of};
ghost use Rattle.desk.specs.Unbacked.{unbacked_of};

use desk::Change;

// Checks a record: good, code 32 or refused.
#[unsafe(no_mangle)]
pub extern "C" fn drevokas_check(r: &[u8]) -> u64
    ensures { result ≡ packed_check (check r.now) }
{
    drevokas::drevokas_check(r)
}

// Translates one guest address: the host absolute address, code 32, a guest program exception, a host fault, or refused.
#[unsafe(no_mangle)]
pub extern "C" fn drevokas_translate(
    r: &[u8],
    storage: &[u8],
    keys: &[u8],
    designation: u32,
    a: u32,
    kind: u32,
    place: &mut u64,
) -> u64
    ensures { (result ≡ packed_translation (translate r.now (host designation storage.now keys.now) a kind))
        × (place.new ≡ place_after (translate r.now (host designation storage.now keys.now) a kind) place.old) }
{
    drevokas::drevokas_translate(r, storage, keys, designation, a, kind, place)
}

// Runs a guest for at most budget units: intercepted, a host fault, budget used, or refused.
#[unsafe(no_mangle)]
pub extern "C" fn drevokas_run(
    r: &mut [u8],
    storage: &mut [u8],
    keys: &mut [u8],
    designation: u32,
    clock: u64,
    time: u32,
    budget: u32,
    place: &mut u64,
) -> u64
    ensures { RunGives (record { designation = designation; clock = clock; time = time; budget = budget }) r.old storage.old keys.old place.old
        result r.new storage.new keys.new place.new }
{
    drevokas::drevokas_run(r, storage, keys, designation, clock, time, budget, place)
}

// Adds a guest page with a frame: done, code 32, or refused. The number of valid pages is one more where it is done.
#[unsafe(no_mangle)]
pub extern "C" fn drevokas_add_page(
    r: &[u8],
    storage: &mut [u8],
    keys: &[u8],
    designation: u32,
    page: u32,
    frame: u32,
    valid: &mut u32,
) -> u64
    ensures { DeskGives (desk_of (Change.Add frame) r.now designation storage.old keys.now page valid.old) result storage.new valid.new }
{
    drevokas::drevokas_add_page(r, storage, keys, designation, page, frame, valid)
}

// Removes a guest page: done, code 32, or refused. The number of valid pages is one less where it is done.
#[unsafe(no_mangle)]
pub extern "C" fn drevokas_remove_page(
    r: &[u8],
    storage: &mut [u8],
    keys: &[u8],
    designation: u32,
    page: u32,
    valid: &mut u32,
) -> u64
    ensures { DeskGives (desk_of Change.Remove r.now designation storage.old keys.now page valid.old) result storage.new valid.new }
{
    drevokas::drevokas_remove_page(r, storage, keys, designation, page, valid)
}

// Protects a guest page: done, code 32, or refused. The number of valid pages stays.
#[unsafe(no_mangle)]
pub extern "C" fn drevokas_protect_page(
    r: &[u8],
    storage: &mut [u8],
    keys: &[u8],
    designation: u32,
    page: u32,
    valid: &mut u32,
) -> u64
    ensures { DeskGives (desk_of Change.Protect r.now designation storage.old keys.now page valid.old) result storage.new valid.new }
{
    drevokas::drevokas_protect_page(r, storage, keys, designation, page, valid)
}

// Lists the frames of the guest's pages, a word each: done with the number of valid pages, code 32, or refused.
#[unsafe(no_mangle)]
pub extern "C" fn drevokas_list_pages(
    r: &[u8],
    storage: &[u8],
    keys: &[u8],
    designation: u32,
    frames: &mut [u32],
) -> u64
    ensures { ListGives (list_of r.now designation storage.now keys.now frames.old) result frames.new }
{
    drevokas::drevokas_list_pages(r, storage, keys, designation, frames)
}

// Finds the lowest guest page from one up to another that is not valid: its number, none, code 32, or refused.
#[unsafe(no_mangle)]
pub extern "C" fn drevokas_first_unbacked(
    r: &[u8],
    storage: &[u8],
    keys: &[u8],
    designation: u32,
    from: u32,
    to: u32,
    place: &mut u64,
) -> u64
    ensures { (result ≡ packed_found (unbacked_of r.now designation storage.now keys.now from to))
        × (place.new ≡ place_after_found (unbacked_of r.now designation storage.now keys.now from to) place.old) }
{
    drevokas::drevokas_first_unbacked(r, storage, keys, designation, from, to, place)
}
