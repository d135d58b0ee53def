// The marks of a completed unit on the keys of frames: fetched from or stored into, key bit 5; stored into, key bit 6.
#![tactic(auto)]

ghost use Rattle.std.specs.Prelude.{◌≡◌, cond, ◌/◌, ◌<◌, length};
ghost use Rattle.machine.specs.Host.{referenced, changed};
ghost use Rattle.marks.specs.Marks.{mark_of, mark_frame, mark_operand};

use pieces::Pieces;

// A mark: that of a frame that was fetched from or stored into, or that of one that was stored into.
#[derive(Clone, Copy)]
pub enum Mark {
    Referenced,
    Changed,
}

const FRAME: u32 = 4096;

// A mark of a frame.
pub fn mark_frame(keys: &mut [u8], frame: u32, mark: Mark)
    requires { frame < length keys.old }
    ensures { keys.new ≡ mark_frame (mark_of mark) frame keys.old }
{
    let i = frame as usize;
    match mark {
        Mark::Referenced => keys[i] |= 4,
        Mark::Changed => keys[i] |= 2,
    }
}

// The marks of the frame of an interruption's areas, which is fetched from and stored into.
pub fn mark_areas(keys: &mut [u8], frame: u32)
    requires { frame < length keys.old }
    ensures { keys.new ≡ mark_frame changed frame (mark_frame referenced frame keys.old) }
{
    mark_frame(keys, frame, Mark::Referenced);
    mark_frame(keys, frame, Mark::Changed);
}

// A mark of the frames of an operand of `n` bytes.
fn mark_pieces(keys: &mut [u8], n: u32, p: Pieces, mark: Mark)
    requires first_in_bounds { p.first / 4096 < length keys.old }
    requires second_in_bounds { p.count < n → p.second / 4096 < length keys.old }
    ensures { keys.new ≡ mark_operand (mark_of mark) n p.first p.count p.second keys.old }
{
    mark_frame(keys, p.first / FRAME, mark);
    if p.count < n {
        mark_frame(keys, p.second / FRAME, mark);
    }
}

// All the marks of an operand of `n` bytes that was fetched, or stored.
pub fn mark_operand(keys: &mut [u8], n: u32, p: Pieces, stored: bool)
    requires first_in_bounds { p.first / 4096 < length keys.old }
    requires second_in_bounds { p.count < n → p.second / 4096 < length keys.old }
    ensures { keys.new ≡ cond stored (mark_operand changed n p.first p.count p.second (mark_operand referenced n p.first p.count p.second keys.old)) (mark_operand referenced n p.first p.count p.second keys.old) }
{
    mark_pieces(keys, n, p, Mark::Referenced);
    if stored {
        mark_pieces(keys, n, p, Mark::Changed);
    }
}
