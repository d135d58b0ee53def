// The verdicts on what comes beside the record: storage and keys, budget and time, access kind. Each contract equates with tests of
// machine's Refusals.
#![tactic(auto)]

ghost use Rattle.std.specs.Prelude.{◌≡◌, true};
ghost use Rattle.machine.specs.Refusals.{no_refusal};
ghost use Rattle.limits.specs.Parts.{storage_verdict, numbers_verdict, access_verdict};

use machine::{Numbers, Refusal, Verdict};

const FRAME: usize = 4096;

const MOST_FRAMES: usize = 4096;

const MOST_UNITS: u32 = 65535;

const MOST_TIME: u32 = 1048576;

const INSTRUCTION_FETCH: u32 = 2;

// The storage has as many whole frames as there are keys, at least one and not too many.
fn framed(storage: &[u8], keys: &[u8]) -> bool
    ensures { result ≡ true → storage_verdict storage.now keys.now ≡ no_refusal }
{
    keys.len() <= MOST_FRAMES && storage.len() == keys.len() * FRAME && storage.len() != 0
}

// The lengths of storage and keys.
#[tactic(auto, unfolding(crate::specs::Parts::storage_verdict, machine::specs::Refusals::wrong_storage, machine::specs::Refusals::wrong_keys))]
pub fn storage_verdict(storage: &[u8], keys: &[u8]) -> Verdict
    ensures { result ≡ storage_verdict storage.now keys.now }
{
    if framed(storage, keys) {
        return Ok(());
    }
    if storage.len() == 0 || storage.len() > MOST_FRAMES * FRAME || storage.len() % FRAME != 0 {
        return Err(Refusal::WrongStorage);
    }
    if keys.len() != storage.len() / FRAME {
        return Err(Refusal::WrongKeys);
    }
    Ok(())
}

// The budget and the time per unit.
#[tactic(auto, unfolding(crate::specs::Parts::numbers_verdict, machine::specs::Refusals::wrong_budget, machine::specs::Refusals::wrong_time))]
pub fn numbers_verdict(n: Numbers) -> Verdict
    ensures { result ≡ numbers_verdict n }
{
    if n.budget > MOST_UNITS {
        return Err(Refusal::WrongBudget);
    }
    if n.time == 0 || n.time > MOST_TIME {
        return Err(Refusal::WrongTime);
    }
    Ok(())
}

// The access kind.
#[tactic(auto, unfolding(crate::specs::Parts::access_verdict, machine::specs::Refusals::wrong_access))]
pub fn access_verdict(kind: u32) -> Verdict
    ensures { result ≡ access_verdict kind }
{
    if kind > INSTRUCTION_FETCH {
        return Err(Refusal::WrongAccess);
    }
    Ok(())
}
