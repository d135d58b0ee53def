// The guest's side of an address: guest tables, protection, and where a byte stands in host storage.
// Each contract equates with machine's Addresses.
#![tactic(auto)]

ghost use Rattle.std.specs.Prelude.{◌≡◌, cond, ◌&&◌, List, ℕ, ◌*◌, ◌/◌, ◌%◌, ◌≤◌, ◌<◌, length};
ghost use Rattle.machine.specs.declared.Cpu.{Cpu};
ghost use Rattle.machine.specs.Words.{bits, bit, word_at};
ghost use Rattle.machine.specs.Refusals.{frames_of};
ghost use Rattle.machine.specs.Failures.{is_translation, exception_of, walk_exception};
ghost use Rattle.machine.specs.Psw.{access_key, wrap, control};
ghost use Rattle.machine.specs.Walk.{page_index, frame_of, page_protected, walk_page, at_frame};
ghost use Rattle.machine.specs.Host.{host, host_virtual, in_frame, view};
ghost use Rattle.machine.specs.Addresses.{guest_entry, real_page, key_protects, low_protected};
ghost use Rattle.storage.specs.Entered.{Entered};
ghost use Rattle.storage.specs.Steps.{read_through, table_leads, segment_leads, inside};
ghost use Rattle.storage.specs.Found.{Serves};
ghost use Rattle.prefixing.specs.Prefixing.{Sees};
ghost use Rattle.address.specs.Touching.{seen, settled, guest_protects, touched, touch_of};
ghost use Rattle.address.specs.Locating.{fault_number, failure_in, page_in, place_in};

use machine::{Failure, Guest, Psw, Registers};
use prefixing::Space;
use storage::Segment;

// Where a byte stands in host storage, or why it cannot be reached.
pub type Place = Result<u32, Failure>;

const PROTECTION: u64 = 4;

const SEGMENT: u64 = 0x10;

const PAGE: u64 = 0x11;

const SPECIFICATION: u64 = 0x12;

// Numbers from here on say a failure.
const STOPPED: u64 = 4294967296;

// A host fault of a host virtual address as a number.
fn faulted(code: u64, v: u32) -> u64
    requires { code < 32 }
    ensures { result ≡ fault_number v code }
{
    (code * 2 + 1) * STOPPED + v as u64
}

// Where the guest's segment entry of a logical address stands, by CR1.
pub fn by_table(cr1: u32, a: u32) -> u64
    ensures { table_leads (walk_exception a) cr1 a ≡ place_in a result }
{
    if cr1 % 128 < a / 1048576 / 16 {
        prefixing::excepted(SEGMENT)
    } else {
        (cr1 / 4096 % 524288 * 4096 + a / 1048576 * 4) as u64
    }
}

// Where the guest's page entry of a logical address stands, by its segment entry.
pub fn by_segment(a: u32, word: u32) -> u64
    ensures { segment_leads (walk_exception a) (page_index a) (Ok word) ≡ place_in a result }
{
    if word / 32 % 2 == 1 {
        return prefixing::excepted(SEGMENT);
    }
    if word / 2147483648 % 2 == 1 {
        return prefixing::excepted(SPECIFICATION);
    }
    let index = a / 4096 % 256;
    if word % 16 < index / 16 {
        return prefixing::excepted(PAGE);
    }
    (word / 64 % 33554432 * 64 + index * 4) as u64
}

// The real page of a guest page entry.
pub fn by_page(word: u32) -> u64
    ensures { (a : ℕ) → walk_page (walk_exception a) (Ok word) ≡ page_in a result }
{
    if word / 1024 % 2 == 1 {
        prefixing::excepted(PAGE)
    } else if storage::page_malformed(word) {
        prefixing::excepted(SPECIFICATION)
    } else {
        word as u64
    }
}

// The guest table entry at a host virtual address, in the host page that was found for it.
pub fn table_word(storage: &[u8], page: u64, v: u32) -> u32
    ensures { result ≡ cond (inside storage.now (in_frame (frame_of page) v)) (word_at storage.now (in_frame (frame_of page) v)) v }
{
    storage::word_or(storage, (page / 4096 % 524288) as u32 * 4096 + v % 4096, v)
}

// The real page of a logical address as a number, and the host segment entry that was found last.
#[derive(Clone, Copy)]
struct Real {
    page: u64,
    kept: Segment,
}

// A real page, or a failure, with no host segment entry.
fn without_segment(page: u64) -> Real
    ensures { (result.page ≡ page) × ((d : ℕ) (s : List ℕ) → Serves d s result.kept.index result.kept.found) }
{
    Real {
        page,
        kept: storage::no_segment(),
    }
}

// The real page by the guest page entry at a guest real address.
fn from_page_entry(storage: &[u8], designation: u32, space: Space, real: u32, kept: Segment) -> Real
    requires { (real % 4 ≡ 0) × Serves designation storage.now kept.index kept.found }
    ensures serves { Serves designation storage.now result.kept.index result.kept.found }
    ensures real_value { (g : Guest) (c : Cpu) → Sees space g c → (k : List ℕ) (a : ℕ)
        → walk_page (walk_exception a) (guest_entry g (view g (host designation storage.now k)) real) ≡ page_in a result.page }
{
    let at = prefixing::virtual_of(space, real);
    if at >= STOPPED {
        return without_segment(at);
    }
    let v = at as u32;
    let segment = storage::segment_for(storage, designation, kept, v);
    let page = storage::page_for(storage, segment.found, v);
    if page >= STOPPED {
        return without_segment(faulted(page % STOPPED, v));
    }
    Real {
        page: by_page(table_word(storage, page, v)),
        kept: segment,
    }
}

// The real page of a logical address by the guest segment entry at a guest real address.
fn from_segment_entry(storage: &[u8], designation: u32, space: Space, a: u32, real: u32) -> Real
    requires { real % 4 ≡ 0 }
    ensures serves { Serves designation storage.now result.kept.index result.kept.found }
    ensures real_value { (g : Guest) (c : Cpu) → Sees space g c → (k : List ℕ)
        → walk_page (walk_exception a) (read_through (guest_entry g (view g (host designation storage.now k)))
        (segment_leads (walk_exception a) (page_index a) (guest_entry g (view g (host designation storage.now k)) real))) ≡ page_in a result.page }
{
    let at = prefixing::virtual_of(space, real);
    if at >= STOPPED {
        return without_segment(at);
    }
    let v = at as u32;
    let segment = storage::segment_for(storage, designation, storage::no_segment(), v);
    let page = storage::page_for(storage, segment.found, v);
    if page >= STOPPED {
        return without_segment(faulted(page % STOPPED, v));
    }
    let next = by_segment(a, table_word(storage, page, v));
    if next >= STOPPED {
        return without_segment(next);
    }
    from_page_entry(storage, designation, space, next as u32, segment)
}

// DAT is on, by the left word as addressing looks at it.
pub fn dat_on(left: u32) -> bool
    ensures { result ≡ bit 32 5 left }
{
    left / 67108864 % 2 == 1
}

// The real page of a logical address.
fn real_page(storage: &[u8], designation: u32, space: Space, a: u32) -> Real
    ensures serves { Serves designation storage.now result.kept.index result.kept.found }
    ensures a_value { (g : Guest) (c : Cpu) → Sees space g c → (k : List ℕ)
        → real_page g (view g (host designation storage.now k)) c a ≡ page_in a result.page }
{
    if !dat_on(space.left) {
        return without_segment((a / 4096 * 4096) as u64);
    }
    if space.cr0 / 524288 % 32 != 22 {
        return without_segment(prefixing::excepted(SPECIFICATION));
    }
    let real = by_table(space.cr1, a);
    if real >= STOPPED {
        return without_segment(real);
    }
    from_segment_entry(storage, designation, space, a, real as u32)
}

// Stores to 0-511 with CR0 bit 3 one.
fn low_protected(cr0: u32, a: u32) -> bool
    ensures { (c : Cpu) → cr0 ≡ control c 0 → result ≡ low_protected c a }
{
    a < 512 && cr0 / 268435456 % 2 == 1
}

// Key protection, by the byte's key.
fn key_protects(left: u32, store: bool, key: u8) -> bool
    ensures { (c : Cpu) → bits 32 8 11 left ≡ access_key c → result ≡ key_protects c store key }
{
    let access = left / 1048576 % 16;
    access != 0 && access != key as u32 / 16 % 16 && (store || key / 8 % 2 == 1)
}

// Guest page protection, then key protection, by the byte's key.
fn guest_protects(left: u32, store: bool, protected: bool, key: u8) -> bool
    ensures { (c : Cpu) → bits 32 8 11 left ≡ access_key c → result ≡ guest_protects c store protected key }
{
    store && protected || key_protects(left, store, key)
}

// The last tests of a byte at a host virtual address, by the host page that was found for it.
fn settle(keys: &[u8], left: u32, store: bool, protected: bool, v: u32, page: u64) -> u64
    requires { frame_of page < length keys.now }
    ensures { (g : Guest) (c : Cpu) (absolute a : ℕ) → bits 32 8 11 left ≡ access_key c → v ≡ host_virtual g absolute
        → settled g keys.now store (guest_protects c store protected) absolute (at_frame (frame_of page) (page_protected page)) ≡ place_in a result }
{
    let frame = (page / 4096 % 524288) as u32;
    if guest_protects(left, store, protected, keys[frame as usize]) {
        return prefixing::excepted(PROTECTION);
    }
    if store && page / 512 % 2 == 1 {
        return faulted(PROTECTION, v);
    }
    (frame * 4096 + v % 4096) as u64
}

// Where a byte of a real page stands.
fn in_page(
    storage: &[u8],
    keys: &[u8],
    designation: u32,
    space: Space,
    store: bool,
    a: u32,
    real: Real,
) -> u64
    requires { (frames_of storage.now ≤ length keys.now) × Serves designation storage.now real.kept.index real.kept.found }
    ensures { (g : Guest) (c : Cpu) → Sees space g c
        → touched g (host designation storage.now keys.now) c store a (page_in a real.page) ≡ place_in a result }
{
    let entry = real.page;
    if entry >= STOPPED {
        return entry;
    }
    let at = prefixing::virtual_of(space, entry as u32 / 4096 * 4096 + a % 4096);
    if at >= STOPPED {
        return at;
    }
    let v = at as u32;
    let kept = real.kept;
    let segment = storage::segment_for(storage, designation, kept, v);
    let page = storage::page_for(storage, segment.found, v);
    if page >= STOPPED {
        return faulted(page % STOPPED, v);
    }
    settle(keys, space.left, store, entry / 512 % 2 == 1, v, page)
}

// Where the byte at a wrapped logical address stands in host storage, or why it cannot be reached, as one number.
pub fn locate(storage: &[u8], keys: &[u8], space: Space, store: bool, a: u32) -> u64
    requires { frames_of storage.now ≤ length keys.now }
    ensures { (g : Guest) (c : Cpu) → Sees space g c → touch_of g (host space.designation storage.now keys.now) c store a ≡ place_in a result }
{
    let designation = space.designation;
    if store && low_protected(space.cr0, a) {
        return prefixing::excepted(PROTECTION);
    }
    let real = real_page(storage, designation, space, a);
    in_page(storage, keys, designation, space, store, a, real)
}

// A guest program exception with no address.
pub fn exception_of(code: u32) -> Failure
    ensures { result ≡ exception_of code }
{
    Failure {
        host: false,
        code,
        address: 0,
    }
}

// The address that an exception of a logical address gives: its page, for 10 and 11 hex.
fn exception_address(a: u32, code: u32) -> u32
    ensures { result ≡ cond (is_translation code) (a / 4096 * 4096) 0 }
{
    if code as u64 == SEGMENT || code as u64 == PAGE {
        a / 4096 * 4096
    } else {
        0
    }
}

// The failure that a number says of a logical address.
pub fn failure_of(a: u32, w: u64) -> Failure
    ensures { result ≡ failure_in a w }
{
    let host = w / STOPPED % 2 == 1;
    let code = (w / 8589934592) as u32;
    let address = if host {
        (w % STOPPED) as u32
    } else {
        exception_address(a, code)
    };
    Failure {
        host,
        code,
        address,
    }
}

// The place that a number says of a logical address.
pub fn place_of(a: u32, w: u64) -> Place
    ensures { result ≡ place_in a w }
{
    if w < STOPPED {
        Ok(w as u32)
    } else {
        Err(failure_of(a, w))
    }
}

// Where the byte at a wrapped logical address stands, for a guest, a PSW and control registers.
pub fn touch(
    storage: &[u8],
    keys: &[u8],
    designation: u32,
    guest: Guest,
    psw: Psw,
    control: Registers,
    store: bool,
    a: u32,
) -> Place
    requires { Entered guest × (frames_of storage.now ≤ length keys.now) }
    ensures { result ≡ touch_of guest (host designation storage.now keys.now) (seen psw control) store a }
{
    let cr0 = control.words[0];
    let cr1 = control.words[1];
    let space = prefixing::space_of(guest, psw, cr0, cr1, designation);
    place_of(a, locate(storage, keys, space, store, a))
}

// A logical address, wrapped by PSW bit 32, at 24 bits in a System/370 PSW, whatever the control registers are.
pub fn wrapped(psw: Psw, a: u32) -> u32
    ensures { (control : Registers) → result ≡ wrap (seen psw control) a }
{
    if psw.right / 2147483648 % 2 != 1 || psw.system370 {
        a % 16777216
    } else {
        a % 2147483648
    }
}
