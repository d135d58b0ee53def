// By which table an access fails: the tables are walked again where a lookup has failed. Each contract equates with machine's Sought.
#![tactic(auto)]

ghost use Rattle.std.specs.Prelude.{◌≡◌, Bool, List, ℕ, ◌%◌, ◌≤◌};
ghost use Rattle.machine.specs.declared.Cpu.{Cpu};
ghost use Rattle.machine.specs.declared.Guest.{Guest};
ghost use Rattle.machine.specs.Failures.{segment_translation};
ghost use Rattle.machine.specs.Walk.{page_index};
ghost use Rattle.machine.specs.Host.{host, view};
ghost use Rattle.machine.specs.Addresses.{guest_entry};
ghost use Rattle.machine.specs.Sought.{way_of_segment, guest_sought_by, guest_sought, sought};
ghost use Rattle.prefixing.specs.Prefixing.{Sees};
ghost use Rattle.address.specs.Touching.{touch_of};
ghost use Rattle.address.specs.Locating.{failure_in, place_in};
ghost use Rattle.sought.specs.Failing.{ReadAs, ExceptsBy, Excepts};

use machine::{Sought, Stage};
use prefixing::Space;

const PROTECTION: u64 = 4;

const ADDRESSING: u64 = 5;

const SEGMENT: u64 = 0x10;

// Numbers from here on say a failure.
const STOPPED: u64 = 4294967296;

// The guest table entry at a guest real address; 2^32 where it cannot be read.
fn guest_word(storage: &[u8], space: Space, real: u32) -> u64
    requires { real % 4 ≡ 0 }
    ensures { (g : Guest) (c : Cpu) → Sees space g c → (k : List ℕ) → ReadAs (guest_entry g (view g (host space.designation storage.now k)) real) result }
{
    let at = prefixing::virtual_of(space, real);
    if at >= STOPPED {
        return STOPPED;
    }
    let v = at as u32;
    let segment = storage::segment_for(storage, space.designation, storage::no_segment(), v);
    let page = storage::page_for(storage, segment.found, v);
    if page >= STOPPED {
        return STOPPED;
    }
    address::table_word(storage, page, v) as u64
}

// Where the guest's walk for a logical address ends, by its segment entry, which is read and, by the exception's code, not invalid.
fn guest_by_segment(space: Space, a: u32, code: u64, at: u32, word: u32) -> Sought
    requires { code ≡ segment_translation → ⊥ }
    ensures { (g : Guest) (c : Cpu) → Sees space g c → (d : ℕ) (s k : List ℕ)
        → ExceptsBy (way_of_segment (guest_entry g (view g (host d s k))) at (page_index a) (Ok word)) code
        → result ≡ guest_sought_by (way_of_segment (guest_entry g (view g (host d s k))) at (page_index a) (Ok word)) }
{
    if word / 2147483648 % 2 == 1 {
        return faults::sought_at(Stage::GuestSegment, at);
    }
    let page = a / 4096 % 256;
    if word % 16 < page / 16 {
        return faults::sought_at(Stage::GuestPage, 0);
    }
    let next = word / 64 % 33554432 * 64 + page * 4;
    if code != ADDRESSING {
        return faults::sought_at(Stage::GuestPage, next);
    }
    if prefixing::virtual_of(space, next) >= STOPPED {
        return faults::sought_at(Stage::GuestPage, 0);
    }
    faults::nowhere()
}

// Where the guest's walk for a logical address ends, where that is in an exception with this code, by which less need be read.
fn guest_sought(storage: &[u8], space: Space, a: u32, code: u64) -> Sought
    ensures { (g : Guest) (c : Cpu) → Sees space g c → (k : List ℕ) → Excepts g (view g (host space.designation storage.now k)) c a code
        → result ≡ guest_sought g (view g (host space.designation storage.now k)) c a }
{
    if !address::dat_on(space.left) || space.cr0 / 524288 % 32 != 22 {
        return faults::nowhere();
    }
    let index = a / 1048576;
    if space.cr1 % 128 < index / 16 {
        return faults::sought_at(Stage::GuestSegment, 0);
    }
    let at = space.cr1 / 4096 % 524288 * 4096 + index * 4;
    if code == SEGMENT {
        return faults::sought_at(Stage::GuestSegment, at);
    }
    let word = guest_word(storage, space, at);
    if word >= STOPPED {
        return faults::sought_at(Stage::GuestSegment, 0);
    }
    guest_by_segment(space, a, code, at, word as u32)
}

// By which table an access to a logical address fails, which a number says.
pub fn sought(storage: &[u8], space: Space, a: u32, w: u64) -> Sought
    requires { 4294967296 ≤ w }
    ensures { (g : Guest) (c : Cpu) → Sees space g c → (k : List ℕ) (store : Bool)
        → touch_of g (host space.designation storage.now k) c store a ≡ place_in a w
        → result ≡ sought g (host space.designation storage.now k) c a (failure_in a w) }
{
    let code = w / 8589934592;
    if code == PROTECTION {
        faults::nowhere()
    } else if w / STOPPED % 2 == 1 {
        faults::host_sought(storage, space.designation, (w % STOPPED) as u32)
    } else {
        guest_sought(storage, space, a, code)
    }
}
