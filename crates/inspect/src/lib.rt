// The operations that change nothing: check a record, translate one guest address. Each contract equates the answer with machine's
// Operations: check for every input, refused input too; translate once the input is accepted. And by which table a run's answer is.
#![tactic(auto)]

ghost use Rattle.std.specs.Prelude.{◌≡◌, Bool, true, List, ℕ, ◌≤◌, length};
ghost use Rattle.machine.specs.Record.{guest_of, cpu_of};
ghost use Rattle.machine.specs.Entry.{entry_good};
ghost use Rattle.machine.specs.Refusals.{frames_of, translate_verdict, no_refusal};
ghost use Rattle.machine.specs.Host.{host};
ghost use Rattle.machine.specs.declared.Cpu.{Cpu};
ghost use Rattle.machine.specs.declared.Guest.{Guest};
ghost use Rattle.machine.specs.Operations.{check, translate, translates, translated_as};
ghost use Rattle.machine.specs.Sought.{end_sought};
ghost use Rattle.entry.specs.Modes.{xa_mode};
ghost use Rattle.prefixing.specs.Prefixing.{Sees};
ghost use Rattle.address.specs.Touching.{touch_of};
ghost use Rattle.address.specs.Locating.{place_in};
ghost use Rattle.inspections.specs.Inspecting.{packed_translation, place_after};
ghost use Rattle.inspect.specs.Answering.{answered, answer_sought};

use machine::{Answer, Checked, End, Guest, Psw, Sought, Stopped, Translated};
use prefixing::Space;

const STORE: u32 = 1;

// Numbers from here on say a failure.
const STOPPED: u64 = 4294967296;

const LONG_RECORD: usize = 208;

// Checks a record: good, code 32 or refused.
pub fn check(r: &[u8]) -> Answer<Checked>
    ensures { result ≡ check r.now }
{
    refusals::check_verdict(r)?;
    if entry::entry_good(records::guest_of(r), r.len() == LONG_RECORD) {
        return Ok(Checked::Good);
    }
    Ok(Checked::Validity)
}

// What a byte that was looked for in vain comes to, which a number says: the tables are walked again for the one that was bad.
fn failed(storage: &[u8], space: Space, a: u32, w: u64) -> Translated
    requires { 4294967296 ≤ w }
    ensures { (g : Guest) (c : Cpu) → Sees space g c → (k : List ℕ) (store : Bool)
        → touch_of g (host space.designation storage.now k) c store a ≡ place_in a w
        → result ≡ answered g (host space.designation storage.now k) c a (place_in a w) }
{
    Translated::Failed {
        failure: address::failure_of(a, w),
        sought: sought::sought(storage, space, a, w),
    }
}

// A System/370 guest's EC PSW with DAT on is not translated; every other PSW's addresses are.
fn translates(psw: Psw) -> bool
    ensures { (c : Cpu) → psw ≡ c.psw → result ≡ translates c }
{
    !psw.system370 || psw.left / 67108864 % 2 != 1 || psw.left / 524288 % 2 != 1
}

// translate of a guest that entry lets through, with a PSW that is translated. Inlined: a call takes some 60 instructions a translation.
#[inline(always)]
fn translate_good(
    r: &[u8],
    storage: &[u8],
    keys: &[u8],
    designation: u32,
    guest: Guest,
    psw: Psw,
    a: u32,
    kind: u32,
) -> Translated
    requires input { (200 ≤ length r.now) × (frames_of storage.now ≤ length keys.now) }
    requires guest { (guest ≡ guest_of r.now) × (psw ≡ (cpu_of r.now).psw) × (entry_good (guest_of r.now) ≡ true) × (translates (cpu_of r.now) ≡ true) }
    ensures { Ok result ≡ translated_as r.now (host designation storage.now keys.now) a kind no_refusal }
{
    let control = records::table_controls(r);
    let space = prefixing::space_of(guest, psw, control.words[0], control.words[1], designation);
    let at = address::wrapped(psw, a);
    let found = address::locate(storage, keys, space, kind == STORE, at);
    if found < STOPPED {
        return Translated::Address(found as u32);
    }
    failed(storage, space, at, found)
}

// translate of a 370-XA guest, once the input is accepted.
pub fn translate_xa(
    r: &[u8],
    storage: &[u8],
    keys: &[u8],
    designation: u32,
    a: u32,
    kind: u32,
) -> Answer<Translated>
    requires { (xa_mode (guest_of r.now).mode ≡ true) × (translate_verdict r.now storage.now keys.now kind ≡ no_refusal) }
    ensures { result ≡ translated_as r.now (host designation storage.now keys.now) a kind no_refusal }
{
    let guest = records::guest_of(r);
    if !entry::place_good(guest) {
        return Ok(Translated::Validity);
    }
    let psw = records::psw_of(r);
    Ok(translate_good(r, storage, keys, designation, guest, psw, a, kind))
}

// translate of any other guest, once the input is accepted: entry looks at its mode, and its PSW may have DAT on.
pub fn translate_other(
    r: &[u8],
    storage: &[u8],
    keys: &[u8],
    designation: u32,
    a: u32,
    kind: u32,
) -> Answer<Translated>
    requires { translate_verdict r.now storage.now keys.now kind ≡ no_refusal }
    ensures { result ≡ translated_as r.now (host designation storage.now keys.now) a kind no_refusal }
{
    let guest = records::guest_of(r);
    if !entry::entry_good(guest, r.len() == LONG_RECORD) {
        return Ok(Translated::Validity);
    }
    let psw = records::psw_of(r);
    if !translates(psw) {
        return Ok(Translated::Validity);
    }
    Ok(translate_good(r, storage, keys, designation, guest, psw, a, kind))
}

// translate, once the input is accepted: the answer is packed, and what it says of the address stands at the place.
pub fn translate_accepted(
    r: &[u8],
    storage: &[u8],
    keys: &[u8],
    designation: u32,
    a: u32,
    kind: u32,
    place: &mut u64,
) -> u64
    requires { translate_verdict r.now storage.now keys.now kind ≡ no_refusal }
    ensures { (result ≡ packed_translation (translate r.now (host designation storage.now keys.now) a kind))
        × (place.new ≡ place_after (translate r.now (host designation storage.now keys.now) a kind) place.old) }
{
    let t = if entry::xa_mode(r[4]) {
        translate_xa(r, storage, keys, designation, a, kind)
    } else {
        translate_other(r, storage, keys, designation, a, kind)
    };
    *place = inspections::place_after(t, *place);
    inspections::pack_translation(t)
}

// By which table a run's host fault is, in the storage that the run left.
#[tactic(auto, unfolding(machine::specs::Sought::end_sought))]
fn table_of_end(storage: &[u8], designation: u32, end: End) -> Sought
    ensures { result ≡ end_sought designation storage.now end }
{
    match end {
        End::HostFault(f) => faults::fault_sought(storage, designation, f),
        End::Intercepted(_) | End::BudgetUsed => faults::nowhere(),
    }
}

// By which table a run's answer is.
#[tactic(auto, unfolding(crate::specs::Answering::answer_sought))]
pub fn table_of(storage: &[u8], designation: u32, a: Answer<Stopped>) -> Sought
    ensures { result ≡ answer_sought designation storage.now a }
{
    match a {
        Err(_) => faults::nowhere(),
        Ok(Stopped { end, .. }) => table_of_end(storage, designation, end),
    }
}
