// The table of kept blocks: a block is entered, and those that it shuts out are dropped. A guard names the frames that decide the
// translations.
#![tactic(auto)]

ghost use Rattle.std.specs.Prelude.{◌≡◌, true, ◌≤◌, ◌<◌, length};
ghost use Rattle.machine.specs.Refusals.{frames_of};
ghost use Rattle.machine.specs.Host.{host};
ghost use Rattle.storage.specs.Entered.{Entered};
ghost use Rattle.address.specs.Touching.{seen, touch_of};
ghost use Rattle.blocks.specs.Keeping.{Free};
ghost use Rattle.pages.specs.Tabling.{Tables, Marked, Fewer, entry_at, entered};

use address::Place;
use machine::{Guest, Psw, Registers};

// The first address of an entry that holds no block.
pub const NO_BLOCK: u32 = 2147483648;

// The key has the marks that accesses of the kind make.
fn has_marks(key: u8, store: bool) -> bool
    ensures { result ≡ true → Marked store key }
{
    key / 4 % 2 == 1 && (!store || key / 2 % 2 == 1)
}

// Drops the blocks that are stored into and lie in a frame that the guard names.
pub fn spare(guard: &[u8; 64], kept: &mut [u32; 32])
    ensures { Fewer kept.old kept.new × Free guard.now kept.new }
{
    for i in 0..8 {
        let frame = kept[24 + i] / 4096 % 64;
        if guard[frame as usize] != 0 {
            kept[16 + i] = NO_BLOCK;
        }
    }
}

// The entry of an address, by the place of its first word.
fn entry_at(store: bool, a: u32) -> usize
    ensures { (result ≡ entry_at store a) × (result < 24) }
{
    let i = (a / 2048 % 8) as usize;
    if store { 16 + i } else { i }
}

// Enters the block of an address that leads to a place.
fn enter(kept: &mut [u32; 32], store: bool, a: u32, p: u32)
    ensures { kept.new ≡ entered kept.old store a p }
{
    let i = entry_at(store, a);
    kept[i] = a / 2048 * 2048;
    kept[8 + i] = p / 2048 * 2048;
}

// Keeps the block of an address that leads to a place, where its marks are made, and, for stores, the guard does not name its frame.
fn keep_at(
    storage: &[u8],
    keys: &[u8],
    guard: &mut [u8; 64],
    kept: &mut [u32; 32],
    designation: u32,
    guest: Guest,
    psw: Psw,
    control: Registers,
    store: bool,
    a: u32,
    p: u32,
) -> bool
    requires { Entered guest × (frames_of storage.now ≤ length keys.now)
        × (touch_of guest (host designation storage.now keys.now) (seen psw control) store a ≡ Ok p) }
    ensures { Tables designation guest psw control storage.now keys.now guard.old kept.old guard.new kept.new }
{
    let frame = p / 4096;
    if !has_marks(keys[frame as usize], store) {
        return false;
    }
    guard::name_access(storage, guard, designation, guest, psw, control, a);
    spare(guard, kept);
    if store && guard[(frame % 64) as usize] != 0 {
        return false;
    }
    enter(kept, store, a, p);
    true
}

// Keeps the block of a wrapped logical address, where the access is good and its marks are made. Whether it is kept now.
pub fn keep(
    storage: &[u8],
    keys: &[u8],
    guard: &mut [u8; 64],
    kept: &mut [u32; 32],
    designation: u32,
    guest: Guest,
    psw: Psw,
    control: Registers,
    store: bool,
    a: u32,
) -> bool
    requires { Entered guest × (frames_of storage.now ≤ length keys.now) × (a < 2147483648) }
    ensures { Tables designation guest psw control storage.now keys.now guard.old kept.old guard.new kept.new }
{
    match address::touch(storage, keys, designation, guest, psw, control, store, a) {
        Err(_) => false,
        Ok(p) => keep_at(
            storage,
            keys,
            guard,
            kept,
            designation,
            guest,
            psw,
            control,
            store,
            a,
            p,
        ),
    }
}
