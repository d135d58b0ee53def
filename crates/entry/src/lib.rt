// Entry: whether a guest is let through, by its mode and its place in the host's storage. Each contract equates with machine's Entry.
#![tactic(auto)]

ghost use Rattle.std.specs.Prelude.{◌≡◌, ◌&&◌, eqb};
ghost use Rattle.machine.specs.Entry.{extent_fits, prefix_fits, entry_good};
ghost use Rattle.entry.specs.Modes.{xa_mode, mode_good};

use machine::Guest;

// What entry counts in: bytes of a page and of a block of origin and extent, and the blocks of the host's 2 GiB.
const PAGE: u64 = 4096;

const BLOCK: u64 = 65536;

const BLOCKS: u32 = 32768;

// Mode bits 4-6 of a 370-XA guest, bits 4-5 of a System/370 one, and what the latter's prefix stays below, in pages: 24-bit addresses.
const XA_370: u8 = 4;

const SYSTEM_370: u8 = 1;

const SHORT_PREFIX: u32 = 4096;

// The mode is 370-XA's.
pub fn xa_mode(mode: u8) -> bool
    ensures { result ≡ xa_mode mode }
{
    mode / 2 % 8 == XA_370
}

// Whether the mode is installed: 370-XA's, or System/370's with a record and a prefix that can have it.
#[tactic(auto, unfolding(crate::specs::Modes::mode_good))]
fn mode_good(mode: u8, long: bool, prefix: u32) -> bool
    ensures { result ≡ mode_good mode long prefix }
{
    xa_mode(mode)
        || (mode / 4 % 4 == SYSTEM_370 && mode / 2 % 2 == 0 && long && prefix < SHORT_PREFIX)
}

// Whether the guest lies in the host's 2 GiB and its prefix in the guest; then its extent is not 0, and its origin at most 32,767.
#[tactic(auto, unfolding(machine::specs::Entry::extent_fits, machine::specs::Entry::prefix_fits))]
pub fn place_good(guest: Guest) -> bool
    ensures { result ≡ (extent_fits guest && prefix_fits guest) }
{
    guest.origin as u32 + guest.extent as u32 <= BLOCKS
        && guest.prefix as u64 * PAGE + PAGE <= guest.extent as u64 * BLOCK
}

// Whether entry lets a guest through, whose record is the longer one, of version 2, or not.
#[tactic(auto, using(crate::proofs::Parts::entry_parts))]
pub fn entry_good(guest: Guest, long: bool) -> bool
    requires { long ≡ eqb guest.version 2 }
    ensures { result ≡ entry_good guest }
{
    mode_good(guest.mode, long, guest.prefix) && place_good(guest)
}
