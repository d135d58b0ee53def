// What addressing looks at of a guest and its CPU, and prefixing: the host virtual address of a guest real one. Each contract equates
// with machine's Addresses.
#![tactic(auto)]

ghost use Rattle.std.specs.Prelude.{◌≡◌, ◌<◌};
ghost use Rattle.machine.specs.declared.Cpu.{Cpu};
ghost use Rattle.machine.specs.Words.{bits, bit};
ghost use Rattle.machine.specs.Psw.{dat_on, access_key, control};
ghost use Rattle.machine.specs.Addresses.{prefixed};
ghost use Rattle.storage.specs.Entered.{Entered};
ghost use Rattle.prefixing.specs.Prefixing.{Sees, exception_number, virtual_in};

mod space;

use machine::{Guest, Psw};
pub use space::Space;

const ADDRESSING: u64 = 5;

// The PSW's left word as addressing looks at it: its access key, and bit 5 as DAT. A BC PSW has none: its bit 5 is a channel's mask.
fn addressing_left(psw: Psw) -> u32
    ensures { (c : Cpu) → psw ≡ c.psw → (bit 32 5 result ≡ dat_on c) × (bits 32 8 11 result ≡ access_key c) }
{
    if psw.system370 && psw.left / 524288 % 2 != 1 {
        psw.left / 134217728 * 134217728 + psw.left % 67108864
    } else {
        psw.left
    }
}

// What addressing looks at of a guest that entry lets through.
pub fn space_of(guest: Guest, psw: Psw, cr0: u32, cr1: u32, designation: u32) -> Space
    requires { Entered guest }
    ensures { (result.designation ≡ designation) × ((c : Cpu) → psw ≡ c.psw → cr0 ≡ control c 0 → cr1 ≡ control c 1 → Sees result guest c) }
{
    Space {
        origin: guest.origin as u32 * 65536,
        extent: guest.extent as u32 * 65536,
        prefix: guest.prefix * 4096,
        left: addressing_left(psw),
        cr0,
        cr1,
        designation,
    }
}

// A guest program exception as a number.
pub fn excepted(code: u64) -> u64
    requires { code < 32 }
    ensures { result ≡ exception_number code }
{
    code * 8589934592
}

// The host virtual address of a guest real one, or addressing. Both blocks that prefixing exchanges lie below the extent.
pub fn virtual_of(space: Space, real: u32) -> u64
    ensures { (g : Guest) (c : Cpu) → Sees space g c → result ≡ virtual_in g (prefixed g real) }
{
    let origin = space.origin as u64;
    let absolute = real as u64;
    let at = origin + absolute;
    if real / 4096 == 0 {
        at + space.prefix as u64
    } else if real / 4096 * 4096 == space.prefix {
        origin + absolute % 4096
    } else if absolute < space.extent as u64 {
        at
    } else {
        excepted(ADDRESSING)
    }
}
