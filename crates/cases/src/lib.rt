// Case files: the parser, and copies of a file's parts. A file is any slice. Each contract equates with the definitions of
// specs/CaseFile.
#![tactic(auto)]

ghost use Rattle.std.specs.Prelude.{◌≡◌, true, ◌*◌, ◌≤◌, length, take};
ghost use Rattle.cases.specs.CaseFile.{record_size, count_of, numbers_of, record_of, keys_of, storage_of, well_formed, case_of};

use machine::Numbers;

const VERSION: usize = 4;

const DESIGNATION: usize = 5;

const CLOCK: usize = 9;

const TIME: usize = 17;

const BUDGET: usize = 21;

pub const RECORD: usize = 23;

// A file with a byte for the frame count, whatever the record's size, is this long.
const LEAST: usize = 224;

const FRAME: usize = 4096;

const MOST_FRAMES: usize = 8;

const MOST_BYTES: usize = MOST_FRAMES * FRAME;

// The sizes of the record.
const SHORT_RECORD: usize = 200;

const LONG_RECORD: usize = 208;

// What a parser finds of a well-formed file: the numbers and the frame count.
#[derive(Clone, Copy)]
pub struct Case {
    pub numbers: Numbers,
    pub count: usize,
}

// The size of the record, which its length field gives.
#[tactic(auto, unfolding(crate::specs::CaseFile::record_size))]
pub fn record_size(file: &[u8]) -> usize
    requires { 25 ≤ length file.now }
    ensures { result ≡ record_size file.now }
{
    if words::half_at(file, RECORD) as usize == LONG_RECORD {
        LONG_RECORD
    } else {
        SHORT_RECORD
    }
}

// The numbers of a case file.
fn numbers_of(file: &[u8]) -> Numbers
    requires { 23 ≤ length file.now }
    ensures { result ≡ numbers_of file.now }
{
    Numbers {
        designation: words::word_at(file, DESIGNATION),
        clock: words::double_at(file, CLOCK),
        time: words::word_at(file, TIME),
        budget: words::half_at(file, BUDGET) as u32,
    }
}

// Parses a case file.
pub fn parse(file: &[u8]) -> Option<Case>
    ensures { result ≡ case_of file.now }
{
    if file.len() < LEAST {
        return None;
    }
    let at = RECORD + record_size(file);
    let count = *file.get(at)? as usize;
    let total = 4 + words::word_at(file, 0) as usize;
    if total == file.len()
        && total == at + 1 + count + count * FRAME
        && file[VERSION] == 1
        && count >= 1
        && count <= MOST_FRAMES
    {
        Some(Case {
            numbers: numbers_of(file),
            count,
        })
    } else {
        None
    }
}

// The record of a case file, at the start.
pub fn record_of(file: &[u8]) -> [u8; LONG_RECORD]
    requires { well_formed file.now ≡ true }
    ensures { (length result ≡ 208) × (take (record_size file.now) result ≡ record_of file.now) }
{
    let mut part = [0; LONG_RECORD];
    let end = RECORD + record_size(file);
    part[..end - RECORD].copy_from_slice(&file[RECORD..end]);
    part
}

// The keys of a case file, at the start.
pub fn keys_of(file: &[u8], count: usize) -> [u8; MOST_FRAMES]
    requires file_value { well_formed file.now ≡ true }
    requires count_value { count ≡ count_of file.now }
    ensures { (length result ≡ 8) × (take count result ≡ keys_of file.now) }
{
    let mut part = [0; MOST_FRAMES];
    let at = RECORD + record_size(file) + 1;
    let end = at + count;
    part[..count].copy_from_slice(&file[at..end]);
    part
}

// The frames of a case file, at the start.
pub fn storage_of(file: &[u8], count: usize) -> [u8; MOST_BYTES]
    requires file_value { well_formed file.now ≡ true }
    requires count_value { count ≡ count_of file.now }
    ensures { (length result ≡ 32768) × (take (count * 4096) result ≡ storage_of file.now) }
{
    let mut part = [0; MOST_BYTES];
    let at = RECORD + record_size(file) + 1 + count;
    part[..count * FRAME].copy_from_slice(&file[at..]);
    part
}
