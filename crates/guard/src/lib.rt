// The frames that decide a translation, named in a guard: while storage stays alike in them, the translation stays what it is.
#![tactic(auto)]

ghost use Rattle.std.specs.Prelude.{◌≡◌, Bool, List, ℕ, ◌*◌, ◌%◌, ◌<◌, length, set};
ghost use Rattle.machine.specs.declared.Cpu.{Cpu};
ghost use Rattle.machine.specs.Failures.{walk_exception};
ghost use Rattle.machine.specs.Psw.{dat_on};
ghost use Rattle.machine.specs.Walk.{page_index, walk_page};
ghost use Rattle.machine.specs.Host.{host, host_page, view};
ghost use Rattle.machine.specs.Addresses.{prefixed, guest_entry, real_page};
ghost use Rattle.storage.specs.Entered.{Entered};
ghost use Rattle.storage.specs.Steps.{read_through, table_leads, segment_leads};
ghost use Rattle.address.specs.Touching.{seen, Aligned, touch_of};
ghost use Rattle.address.specs.Locating.{page_in};
ghost use Rattle.guard.specs.Guarding.{Wider, Alike};

use machine::{Guest, Page, Psw, Registers, TableEntry, Walk};

const ADDRESSING: u32 = 5;

const TRANSLATION_SPECIFICATION: u32 = 0x12;

// Numbers from here on say a failure.
const STOPPED: u64 = 4294967296;

// Prefixing exchanges real block 0 and the prefix block.
fn prefixed(guest: Guest, a: u32) -> u32
    requires { Entered guest }
    ensures { result ≡ prefixed guest a }
{
    if a / 4096 == 0 {
        guest.prefix * 4096 + a % 4096
    } else if a / 4096 == guest.prefix {
        a % 4096
    } else {
        a
    }
}

// The real page that a number says of a logical address.
fn page_of(a: u32, w: u64) -> Walk
    ensures { result ≡ page_in a w }
{
    if w < STOPPED {
        Ok(Page {
            frame: (w / 4096) as u32,
            protected: w / 512 % 2 == 1,
        })
    } else {
        Err(address::failure_of(a, w))
    }
}

// The steps of the guest's walk, each by itself: where the segment entry stands, where the page entry stands, the real page.

fn table_leads(cr1: u32, a: u32) -> TableEntry
    ensures { result ≡ table_leads (walk_exception a) cr1 a }
{
    address::place_of(a, address::by_table(cr1, a))
}

fn segment_leads(a: u32, e: TableEntry) -> TableEntry
    ensures { result ≡ segment_leads (walk_exception a) (page_index a) e }
{
    address::place_of(a, address::by_segment(a, e?))
}

fn page_leads(a: u32, e: TableEntry) -> Walk
    ensures { result ≡ walk_page (walk_exception a) e }
{
    page_of(a, address::by_page(e?))
}

// Names a frame.
fn name_frame(guard: &mut [u8; 64], frame: u32)
    ensures { guard.new ≡ set guard.old (frame % 64) 1 }
{
    guard[(frame % 64) as usize] = 1;
}

// Names the frames of the host's table entries for a host virtual address.
pub fn name_host(storage: &[u8], guard: &mut [u8; 64], designation: u32, a: u32)
    requires { a < 2147483648 }
    ensures wider { Wider guard.old guard.new }
    ensures by_index { (t k : List ℕ) → Alike guard.new storage.now t
        → host_page (host designation t k) a ≡ host_page (host designation storage.now k) a }
{
    let at = designation / 4096 % 524288 * 4096 + a / 1048576 * 4;
    name_frame(guard, at / 4096);
    if at as usize + 4 <= storage.len() {
        let entry = words::word_at(storage, at as usize);
        name_frame(
            guard,
            (entry / 64 % 33554432 * 64 + a / 4096 % 256 * 4) / 4096,
        );
    }
}

// Names the frames of the guest table entry at a guest real address, the host's entries for it and the frame in which it stands, and
// gives that entry, whatever the keys are.
fn name_entry(
    storage: &[u8],
    guard: &mut [u8; 64],
    designation: u32,
    guest: Guest,
    real: u32,
) -> TableEntry
    requires { Entered guest × (real % 4 ≡ 0) }
    ensures wider { Wider guard.old guard.new }
    ensures by_index { (t k : List ℕ) → Alike guard.new storage.now t
        → guest_entry guest (view guest (host designation t k)) real ≡ guest_entry guest (view guest (host designation storage.now k)) real }
    ensures by_index_2 { (k : List ℕ) → result ≡ guest_entry guest (view guest (host designation storage.now k)) real }
{
    let at = prefixed(guest, real);
    if at >= guest.extent as u32 * 65536 {
        return Err(address::exception_of(ADDRESSING));
    }
    name_host(
        storage,
        guard,
        designation,
        guest.origin as u32 * 65536 + at,
    );
    let page = storage::backing(storage, designation, guest.origin, guest.extent, at)?;
    name_frame(guard, page.frame);
    Ok(words::word_at(storage, page.frame as usize * 4096 + at as usize % 4096))
}

// The same for the entry at the address that a step led to.
fn name_through(
    storage: &[u8],
    guard: &mut [u8; 64],
    designation: u32,
    guest: Guest,
    e: TableEntry,
) -> TableEntry
    requires { Entered guest × Aligned e }
    ensures wider { Wider guard.old guard.new }
    ensures by_index { (t k : List ℕ) → Alike guard.new storage.now t
        → read_through (guest_entry guest (view guest (host designation t k))) e ≡ read_through (guest_entry guest (view guest (host designation storage.now k))) e }
    ensures by_index_2 { (k : List ℕ) → result ≡ read_through (guest_entry guest (view guest (host designation storage.now k))) e }
{
    name_entry(storage, guard, designation, guest, e?)
}

// DAT is on: bit 5, but not in a BC PSW.
fn dat_on(psw: Psw) -> bool
    ensures { (c : Cpu) → c.psw ≡ psw → result ≡ dat_on c }
{
    psw.left / 67108864 % 2 == 1 && (!psw.system370 || psw.left / 524288 % 2 == 1)
}

// Names the frames of the guest's table entries for a logical address, and gives its real page, whatever the keys are.
fn name_tables(
    storage: &[u8],
    guard: &mut [u8; 64],
    designation: u32,
    guest: Guest,
    psw: Psw,
    control: Registers,
    a: u32,
) -> Walk
    requires { Entered guest }
    ensures wider { Wider guard.old guard.new }
    ensures by_index { (t k : List ℕ) → Alike guard.new storage.now t
        → real_page guest (view guest (host designation t k)) (seen psw control) a ≡ real_page guest (view guest (host designation storage.now k)) (seen psw control) a }
    ensures by_index_2 { (k : List ℕ) → result ≡ real_page guest (view guest (host designation storage.now k)) (seen psw control) a }
{
    if !dat_on(psw) {
        return Ok(Page {
            frame: a / 4096,
            protected: false,
        });
    }
    let cr0 = control.words[0];
    if cr0 / 524288 % 32 != 22 {
        return Err(address::exception_of(TRANSLATION_SPECIFICATION));
    }
    let cr1 = control.words[1];
    let segment = name_through(storage, guard, designation, guest, table_leads(cr1, a));
    let page = name_through(
        storage,
        guard,
        designation,
        guest,
        segment_leads(a, segment),
    );
    page_leads(a, page)
}

// Names the frames that decide an access to a byte at a wrapped logical address.
pub fn name_access(
    storage: &[u8],
    guard: &mut [u8; 64],
    designation: u32,
    guest: Guest,
    psw: Psw,
    control: Registers,
    a: u32,
)
    requires { Entered guest }
    ensures wider { Wider guard.old guard.new }
    ensures by_index { (t k : List ℕ) (store : Bool) → Alike guard.new storage.now t
        → touch_of guest (host designation t k) (seen psw control) store a ≡ touch_of guest (host designation storage.now k) (seen psw control) store a }
{
    if let Ok(page) = name_tables(storage, guard, designation, guest, psw, control, a) {
        let at = prefixed(guest, page.frame * 4096 + a % 4096);
        if at < guest.extent as u32 * 65536 {
            name_host(
                storage,
                guard,
                designation,
                guest.origin as u32 * 65536 + at,
            );
        }
    }
}
