// Writing a sheet whose numbers are known to be right.
ghost use Rattle.std.specs.Prelude.{◌≡◌, ◌≤◌, length};
ghost use Rattle.laws.specs.Row.{at};
ghost use Rattle.laws.specs.Count.{Counted};
ghost use Rattle.words.specs.Lent.{onto};
ghost use Rattle.board.specs.Board.{total};
ghost use Rattle.job.specs.Board.{board_of};
ghost use Rattle.sheet.specs.Sheet.{sheet_length, sheet_of};

use crate::{totals_at, totals_count_at};
use job::Job;
use words::number::write_behind;

// All bytes of `from` to the front of the room. Not the library's `copy_from_slice`, which calls `memmove`: a C program that links the library
// is to need `memcpy` and `memset` only.
fn copy(room: &mut [u8], from: &[u8])
    requires { length from.now ≤ length room.old }
    ensures { room.new ≡ onto from.now room.old }
{
    for (i, byte) in from.iter().enumerate() {
        room[i] = *byte;
    }
}

// The sheet of an assignment with these totals to the front of the room.
pub fn put_sheet(job: &Job, plan: &[u16], totals: &[u16], room: &mut [u8])
    requires every_net { job.now.head.n ≤ length plan.now }
    requires counted { Counted totals.now 128 (total (board_of job.now) (at plan.now)) }
    requires room_is_long { sheet_length job.now.bytes.now ≤ length room.old }
    ensures { room.new ≡ onto (sheet_of job.now.bytes.now (at plan.now)) room.old }
{
    let start = job.head.start;
    let n = job.head.n;
    let c = job.head.c;
    copy(room, &job.bytes[..start]);
    write_behind(room, start, &plan[..n]);
    write_behind(room, totals_count_at(job), &[c as u16]);
    write_behind(room, totals_at(job), &totals[..c]);
}
