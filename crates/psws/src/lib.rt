// A PSW at another address and with another condition code.
#![tactic(auto)]

ghost use Rattle.std.specs.Prelude.{◌≡◌, ◌<◌};
ghost use Rattle.psws.specs.Psws.{psw_at};

use machine::Psw;

// The PSW at this address, cut to the addressing mode, and with this condition code.
#[tactic(auto, unfolding(crate::specs::Psws::psw_at))]
pub fn psw_at(psw: Psw, a: u32, code: u32) -> Psw
    requires { code < 4 }
    ensures { result ≡ psw_at psw a code }
{
    cpu::with_condition_code(cpu::with_address(psw, a), code)
}
