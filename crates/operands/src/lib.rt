// An operand of n bytes: where it stands in host storage, on one page or on two, or why it cannot be reached.
#![tactic(auto)]

ghost use Rattle.std.specs.Prelude.{◌≡◌, ◌≤◌, ◌<◌, length};
ghost use Rattle.machine.specs.Refusals.{frames_of};
ghost use Rattle.machine.specs.Host.{host};
ghost use Rattle.storage.specs.Entered.{Entered};
ghost use Rattle.address.specs.Touching.{seen, touch_of};
ghost use Rattle.operands.specs.Operands.{in_one_page, operand_of};

use address::Place;
use machine::{Failure, Guest, Psw, Registers};
use pieces::Pieces;

// Where an operand stands in host storage, or why it cannot be reached.
pub type Operand = Result<Pieces, Failure>;

// An operand of one page, by its first byte.
pub fn one_page(n: u32, x: Place) -> Operand
    ensures { result ≡ in_one_page n x }
{
    Ok(Pieces {
        first: x?,
        count: n,
        second: 0,
    })
}

// Where the operand of n bytes at a wrapped logical address stands in host storage, or why it cannot be reached.
pub fn find_operand(
    storage: &[u8],
    keys: &[u8],
    designation: u32,
    guest: Guest,
    psw: Psw,
    control: Registers,
    store: bool,
    a: u32,
    n: u32,
) -> Operand
    requires { Entered guest × (frames_of storage.now ≤ length keys.now) × (a < 2147483648) }
    ensures { result ≡ operand_of guest (host designation storage.now keys.now) (seen psw control) store a n }
{
    let m = 4096 - a % 4096;
    let first = address::touch(storage, keys, designation, guest, psw, control, store, a);
    if n <= m {
        return one_page(n, first);
    }
    let first = first?;
    let next = address::wrapped(psw, a + m);
    let second = address::touch(storage, keys, designation, guest, psw, control, store, next)?;
    Ok(Pieces {
        first,
        count: m,
        second,
    })
}
