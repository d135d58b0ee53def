// The program: reads one case file from standard input and prints the one line that it asks for. The run is drevokas_run, on
// copies of the file's parts, and the line is proved to be that of the definition's answer. A file is at most 33,008 bytes; of
// a longer input one byte more is read, and so it is malformed.
#![tactic(auto)]

ghost use Rattle.std.specs.Prelude.{◌≡◌, IfOk, Some};
ghost use Rattle.io.specs.Counts.{IsPrefixLen};
ghost use Rattle.packing.specs.Packing.{packed_answer};
ghost use Rattle.lines.specs.Line.{line_of};
ghost use Rattle.cases.specs.CaseFile.{case_of, answer_of, table_of};

use cases::Case;
use lines::Line;
use machine::Refusal;
use std::io;
use std::io::{Read, Write};

const ROOM: usize = 33009;

const FRAME: usize = 4096;

// Reads until the input ends or the file is full, and answers how much was read.
fn read_input(reader: &mut impl Read, file: &mut [u8]) -> io::Result<usize>
    ensures { IfOk result (λ count. IsPrefixLen count file.new) }
{
    let mut count = 0;
    while count < file.len() {
        match reader.read(&mut file[count..])? {
            0 => break,
            more => count += more,
        }
    }
    Ok(count)
}

// The run of a well-formed case file, on copies of its record, keys and frames.
fn run_parts(file: &[u8], c: Case) -> u64
    requires { case_of file.now ≡ Some c }
    ensures { result ≡ packed_answer (answer_of file.now) (table_of file.now) }
{
    let size = cases::record_size(file);
    let mut record = cases::record_of(file);
    let mut keys = cases::keys_of(file, c.count);
    let mut frames = cases::storage_of(file, c.count);
    let n = c.numbers;
    drevokas::drevokas_run(
        &mut record[..size],
        &mut frames[..c.count * FRAME],
        &mut keys[..c.count],
        n.designation,
        n.clock,
        n.time,
        n.budget,
        &mut 0,
    )
}

// Runs a case file: the packed answer of run, or refusal 9.
fn run_case(file: &[u8]) -> u64
    ensures { result ≡ packed_answer (answer_of file.now) (table_of file.now) }
{
    match cases::parse(file) {
        None => packing::pack_refusal(Refusal::Malformed),
        Some(c) => run_parts(file, c),
    }
}

// Runs a case file: the line that it prints.
fn case_line(file: &[u8]) -> Line
    ensures { result.bytes ≡ line_of (answer_of file.now) }
{
    lines::packed_line(run_case(file))
}

// A read or a write that fails ends the program with its error.
fn main(rt: HostRuntime) -> io::Result<()> {
    let mut file = [0; ROOM];
    let count = read_input(&mut rt.stdin(), &mut file)?;
    let line = case_line(&file[..count]);
    rt.stdout().write_all(line.as_bytes())
}
