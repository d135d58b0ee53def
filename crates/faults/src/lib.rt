// By which of the host's tables a host fault is: the tables are walked again for its address. Each contract equates with machine's
// Sought.
#![tactic(auto)]

ghost use Rattle.std.specs.Prelude.{◌≡◌};
ghost use Rattle.machine.specs.Walk.{page_index};
ghost use Rattle.machine.specs.Host.{host_entry};
ghost use Rattle.machine.specs.Sought.{nowhere, way_of_segment, host_sought_by, host_sought, fault_sought};

use machine::{Failure, Sought, Stage};

const PROTECTION: u32 = 4;

// By no table.
pub fn nowhere() -> Sought
    ensures { result ≡ nowhere }
{
    Sought {
        stage: Stage::None,
        entry: 0,
    }
}

// By an entry of a table, by its address, or zero where it is not read.
pub fn sought_at(stage: Stage, entry: u32) -> Sought
    ensures { result ≡ record { stage = stage; entry = entry } }
{
    Sought { stage, entry }
}

// Where the host's walk for a host virtual address ends, by its segment entry, which is read. A page entry that is read is where it
// ends, whatever its word is.
fn host_by_segment(storage: &[u8], a: u32, at: u32, word: u32) -> Sought
    ensures { result ≡ host_sought_by (way_of_segment (host_entry storage.now a) at (page_index a) (Ok word)) }
{
    if word / 32 % 2 == 1 || word / 2147483648 % 2 == 1 {
        return sought_at(Stage::HostSegment, at);
    }
    let index = a / 4096 % 256;
    if word % 16 < index / 16 {
        return sought_at(Stage::HostPage, 0);
    }
    let page = word / 64 % 33554432 * 64 + index * 4;
    if page as usize + 4 <= storage.len() {
        sought_at(Stage::HostPage, page)
    } else {
        sought_at(Stage::HostPage, 0)
    }
}

// Where the host's walk for a host virtual address ends.
pub fn host_sought(storage: &[u8], designation: u32, a: u32) -> Sought
    ensures { result ≡ host_sought designation storage.now a }
{
    let segment = a / 1048576;
    if designation % 128 < segment / 16 {
        return sought_at(Stage::HostSegment, 0);
    }
    let at = designation / 4096 % 524288 * 4096 + segment * 4;
    if at as usize + 4 <= storage.len() {
        host_by_segment(storage, a, at, words::word_at(storage, at as usize))
    } else {
        sought_at(Stage::HostSegment, 0)
    }
}

// By which table a host fault is.
pub fn fault_sought(storage: &[u8], designation: u32, f: Failure) -> Sought
    ensures { result ≡ fault_sought designation storage.now f }
{
    if f.code == PROTECTION {
        nowhere()
    } else {
        host_sought(storage, designation, f.address)
    }
}
