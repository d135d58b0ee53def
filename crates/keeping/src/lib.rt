// The turn of a streak in which a block or the prefix page's place is kept.
#![tactic(auto)]

ghost use Rattle.std.specs.Prelude.{◌≤◌, ◌<◌, ◌≡◌, List, ℕ, length};
ghost use Rattle.machine.specs.Refusals.{frames_of};
ghost use Rattle.storage.specs.Entered.{Entered};
ghost use Rattle.turns.specs.Turning.{Low};
ghost use Rattle.keeping.specs.Keeping.{Keeping};

use machine::{Guest, Registers};
use turns::{Next, Stand};

// Keeps the place of the prefix page. Behind it comes the unit that wants it.
pub fn keep_area(
    storage: &[u8],
    keys: &[u8],
    guard: &mut [u8; 64],
    kept: &mut [u32; 32],
    designation: u32,
    guest: Guest,
    s: Stand,
) -> Stand
    requires { Entered guest × (frames_of storage.now ≤ length keys.now) × (s.tries ≤ 7) }
    ensures { (words : List ℕ) → Keeping designation guest s words storage.now keys.now guard.old kept.old result guard.new kept.new }
{
    let found = area::keep_area(storage, keys, guard, kept, designation, guest);
    let next = if found >= area::NO_AREA {
        Next::Other
    } else {
        Next::Single
    };
    turns::again(s, next, found)
}

// The turn after a block was wanted, and is kept or denied.
fn next_of(good: bool, single: bool, store: bool, a: u32) -> Next
    requires { a < 2147483648 }
    ensures { Low result }
{
    if !good {
        Next::Denied { store, a }
    } else if single {
        Next::Single
    } else {
        Next::Lap
    }
}

// Keeps the block that is wanted. Behind it comes what wants it, or what the denial comes to.
pub fn keep_block(
    storage: &[u8],
    keys: &[u8],
    guard: &mut [u8; 64],
    kept: &mut [u32; 32],
    control: &[u32; 16],
    designation: u32,
    guest: Guest,
    s: Stand,
    single: bool,
    store: bool,
    a: u32,
) -> Stand
    requires { Entered guest × (frames_of storage.now ≤ length keys.now) × (a < 2147483648) × (s.tries ≤ 7) }
    ensures { Keeping designation guest s control.now storage.now keys.now guard.old kept.old result guard.new kept.new }
{
    let registers = Registers { words: *control };
    let good = pages::keep(
        storage,
        keys,
        guard,
        kept,
        designation,
        guest,
        s.psw,
        registers,
        store,
        a,
    );
    let place = area::spared(guard, s.area);
    let next = next_of(good, single, store, a);
    turns::again(s, next, place)
}

// The block that a turn is for: whether a unit that a lap does not do wants it, whether to store into, and the address. That of
// a denial is such a unit's; a turn for no block has the one at address 0, for a lap to fetch from.
fn wanted(next: Next) -> (bool, bool, u32)
    requires { Low next }
    ensures { result.2 < 2147483648 }
{
    match next {
        Next::Block { single, store, a } => (single, store, a),
        Next::Denied { store, a } => (true, store, a),
        _ => (false, false, 0),
    }
}

// Keeps the place of the prefix page, or the block that is wanted. Behind it comes what wanted it, or what the denial comes to.
// Inlined, so that guest and stand are not copied for a second call.
#[inline(always)]
pub fn keep_turn(
    storage: &[u8],
    keys: &[u8],
    guard: &mut [u8; 64],
    kept: &mut [u32; 32],
    control: &[u32; 16],
    designation: u32,
    guest: Guest,
    s: Stand,
) -> Stand
    requires { Entered guest × (frames_of storage.now ≤ length keys.now) × Low s.next × (s.tries ≤ 7) }
    ensures { Keeping designation guest s control.now storage.now keys.now guard.old kept.old result guard.new kept.new }
{
    if matches!(s.next, Next::Area) {
        return keep_area(storage, keys, guard, kept, designation, guest, s);
    }
    let (single, store, a) = wanted(s.next);
    keep_block(
        storage,
        keys,
        guard,
        kept,
        control,
        designation,
        guest,
        s,
        single,
        store,
        a,
    )
}
