// The kept place of the prefix page: where interruptions store, with no walk.
#![tactic(auto)]

ghost use Rattle.std.specs.Prelude.{◌≡◌, false, List, ℕ, ◌*◌, ◌≤◌, length};
ghost use Rattle.machine.specs.declared.Psw.{Psw};
ghost use Rattle.machine.specs.declared.Registers.{Registers};
ghost use Rattle.machine.specs.Refusals.{frames_of};
ghost use Rattle.machine.specs.Host.{Host, host, backing};
ghost use Rattle.machine.specs.Walk.{at_frame};
ghost use Rattle.storage.specs.Entered.{Entered};
ghost use Rattle.guard.specs.Guarding.{Wider};
ghost use Rattle.pages.specs.Tabling.{Tables};
ghost use Rattle.area.specs.Keeping.{Area};

use machine::Guest;

// No place is kept.
pub const NO_AREA: u32 = 2147483648;

// Keeps the frame behind the prefix page, where its marks are made and the guard does not name it.
fn keep_frame(
    storage: &[u8],
    keys: &[u8],
    guard: &mut [u8; 64],
    kept: &mut [u32; 32],
    designation: u32,
    guest: Guest,
    frame: u32,
) -> u32
    requires { Entered guest × (frames_of storage.now ≤ length keys.now)
        × (backing guest (host designation storage.now keys.now) (guest.prefix * 4096) ≡ at_frame frame false) }
    ensures tables { (psw : Psw) (control : Registers) → Tables designation guest psw control storage.now keys.now guard.old kept.old guard.new kept.new }
    ensures area { Area guard.new guest (host designation storage.now keys.now) result }
{
    if keys[frame as usize] / 2 % 4 != 3 {
        return NO_AREA;
    }
    guard::name_host(
        storage,
        guard,
        designation,
        guest.origin as u32 * 65536 + guest.prefix * 4096,
    );
    pages::spare(guard, kept);
    if guard[(frame % 64) as usize] != 0 {
        return NO_AREA;
    }
    frame * 4096
}

// Keeps the place of the prefix page, where it may be stored into and its marks are made. The place, or that none is kept.
pub fn keep_area(
    storage: &[u8],
    keys: &[u8],
    guard: &mut [u8; 64],
    kept: &mut [u32; 32],
    designation: u32,
    guest: Guest,
) -> u32
    requires { Entered guest × (frames_of storage.now ≤ length keys.now) }
    ensures tables { (psw : Psw) (control : Registers) → Tables designation guest psw control storage.now keys.now guard.old kept.old guard.new kept.new }
    ensures area { Area guard.new guest (host designation storage.now keys.now) result }
{
    match storage::backing(
        storage,
        designation,
        guest.origin,
        guest.extent,
        guest.prefix * 4096,
    ) {
        Ok(page) if !page.protected => keep_frame(
            storage,
            keys,
            guard,
            kept,
            designation,
            guest,
            page.frame,
        ),
        _ => NO_AREA,
    }
}

// The place as it is kept where the guard has come to name more frames.
pub fn spared(guard: &[u8; 64], area: u32) -> u32
    ensures { (before : List ℕ) (g : Guest) (h : Host) → Wider before guard.now → Area before g h area → Area guard.now g h result }
{
    if area >= NO_AREA || guard[(area / 4096 % 64) as usize] != 0 {
        NO_AREA
    } else {
        area
    }
}
