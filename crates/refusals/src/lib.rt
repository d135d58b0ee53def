// The verdicts on the record, and on the whole input of an operation, in the order of the refusals. Each contract equates with
// machine's Refusals.
#![tactic(auto)]

ghost use Rattle.std.specs.Prelude.{◌≡◌, length};
ghost use Rattle.machine.specs.Record.{GoodLength};
ghost use Rattle.machine.specs.Refusals.{check_verdict, translate_verdict, run_verdict};
ghost use Rattle.refusals.specs.Parts.{head_verdict, bytes_verdict, reserved_verdict, interval_verdict};

use machine::{Numbers, Refusal, Verdict};

// The two records: their lengths, and the version of each.
const RECORD: usize = 200;

const VERSION: u8 = 1;

const LONG_RECORD: usize = 208;

const LONG_VERSION: u8 = 2;

// What the interval timer's residue stays below.
const PERIOD: u32 = 40960000;

// The length field and the version, of a record of 200 bytes.
fn short_verdict(r: &[u8]) -> Verdict
    requires { length r.now ≡ 200 }
    ensures { result ≡ head_verdict r.now }
{
    if words::half_at(r, 0) as usize != RECORD {
        return Err(Refusal::WrongLength);
    }
    if r[2] != VERSION {
        return Err(Refusal::WrongVersion);
    }
    Ok(())
}

// Length and version of a record that has not 200 bytes.
fn long_verdict(r: &[u8]) -> Verdict
    requires { length r.now ≡ 200 → ⊥ }
    ensures { result ≡ head_verdict r.now }
{
    if r.len() < RECORD {
        return Err(Refusal::WrongLength);
    }
    let said = words::half_at(r, 0) as usize;
    if said != r.len() {
        return Err(Refusal::WrongLength);
    }
    if said != LONG_RECORD {
        return Err(Refusal::WrongLength);
    }
    if r[2] != LONG_VERSION {
        return Err(Refusal::WrongVersion);
    }
    Ok(())
}

// The record's length and version.
fn head_verdict(r: &[u8]) -> Verdict
    ensures { result ≡ head_verdict r.now }
{
    if r.len() == RECORD {
        return short_verdict(r);
    }
    long_verdict(r)
}

// The reserved bytes that every record has.
fn bytes_verdict(r: &[u8]) -> Verdict
    requires { GoodLength r.now }
    ensures { result ≡ bytes_verdict r.now }
{
    if words::word_at(r, 66) != 0 {
        return Err(Refusal::ReservedUsed);
    }
    if words::half_at(r, 70) != 0 {
        return Err(Refusal::ReservedUsed);
    }
    Ok(())
}

// The interval timer's fields, of the longer record.
#[tactic(auto, unfolding(crate::specs::Parts::interval_verdict, machine::specs::Refusals::wrong_interval, machine::specs::Refusals::used))]
fn interval_verdict(r: &[u8]) -> Verdict
    requires { length r.now ≡ 208 }
    ensures { result ≡ interval_verdict r.now }
{
    if r[201] != 0 {
        return Err(Refusal::ReservedUsed);
    }
    if r[202] != 0 {
        return Err(Refusal::ReservedUsed);
    }
    if r[203] != 0 {
        return Err(Refusal::ReservedUsed);
    }
    if words::word_at(r, 204) >= PERIOD {
        return Err(Refusal::ReservedUsed);
    }
    Ok(())
}

// The reserved bytes and the interval timer's fields.
fn reserved_verdict(r: &[u8]) -> Verdict
    requires { GoodLength r.now }
    ensures { result ≡ reserved_verdict r.now }
{
    bytes_verdict(r)?;
    if r.len() == LONG_RECORD {
        return interval_verdict(r);
    }
    Ok(())
}

// The verdict on the input of check.
pub fn check_verdict(r: &[u8]) -> Verdict
    ensures { result ≡ check_verdict r.now }
{
    head_verdict(r)?;
    reserved_verdict(r)
}

// The verdict on the input of translate with a record of 200 bytes: such a call asks nothing of the longer record.
pub fn short_translate_verdict(r: &[u8], storage: &[u8], keys: &[u8], kind: u32) -> Verdict
    requires { length r.now ≡ 200 }
    ensures { result ≡ translate_verdict r.now storage.now keys.now kind }
{
    short_verdict(r)?;
    limits::storage_verdict(storage, keys)?;
    bytes_verdict(r)?;
    limits::access_verdict(kind)
}

// The verdict on the input of translate.
pub fn translate_verdict(r: &[u8], storage: &[u8], keys: &[u8], kind: u32) -> Verdict
    ensures { result ≡ translate_verdict r.now storage.now keys.now kind }
{
    head_verdict(r)?;
    limits::storage_verdict(storage, keys)?;
    reserved_verdict(r)?;
    limits::access_verdict(kind)
}

// The verdict on the input of the page desk: that of a fetch, of which refusal 8 is not asked.
pub fn desk_verdict(r: &[u8], storage: &[u8], keys: &[u8]) -> Verdict
    ensures { result ≡ translate_verdict r.now storage.now keys.now 0 }
{
    head_verdict(r)?;
    limits::storage_verdict(storage, keys)?;
    reserved_verdict(r)
}

// The verdict on the input of run.
pub fn run_verdict(n: Numbers, r: &[u8], storage: &[u8], keys: &[u8]) -> Verdict
    ensures { result ≡ run_verdict n r.now storage.now keys.now }
{
    head_verdict(r)?;
    limits::storage_verdict(storage, keys)?;
    limits::numbers_verdict(n)?;
    reserved_verdict(r)
}
