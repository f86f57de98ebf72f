// The job writer.
#![tactic(auto)]

ghost use Rattle.std.specs.Prelude.{◌≡◌, ◌+◌, ◌*◌, ◌≤◌, ◌<◌, [], ◌∷◌, ◌++◌, length, take, drop};
ghost use Rattle.words.specs.Verdict.{answer};
ghost use Rattle.words.specs.Number.{bytes};
ghost use Rattle.words.specs.Lent.{onto, room_after};
ghost use Rattle.job.specs.Job.{head_long};
ghost use Rattle.job.specs.Check.{nets_verdict};
ghost use Rattle.job_writer.specs.Write.{first_of, second_of, written_length, write_verdict, head_of, job_of};

use job::read::first_at;
use job::well_formed::{check_net, check_ranges};
use words::number::{write_behind, write_list};
use words::{Crossbar, Fpga, Net, Place, Reason, Refusal, Verdict, first_refusal, refuse_if};

// The numbers of two bytes in front of the nets: a count of three, f, c, m, and n.
const HEAD: usize = 5;

// The byte where the nets start.
pub const START: usize = 2 * HEAD;

// Refusals 9, 27 and 10 for the nets of a list, in order, with the bytes that their numbers would have. Out of line: within the writer
// its counter would stand in memory and not in a register, and the loop take half as long again.
#[inline(never)]
fn check_ends(ends: &[u16], f: usize, n: usize) -> Verdict
    requires { (2 * n ≤ length ends.now) × (n ≤ 4096) }
    ensures { result ≡ nets_verdict f head_long (first_of ends.now) (second_of ends.now) n }
{
    first_refusal(n, |i| {
        let v = ends[2 * i] as usize;
        let w = ends[2 * i + 1] as usize;
        check_net(f, START, i as u16, v, w)
    })
}

pub fn written_length(n: usize) -> usize
    requires { n < 65536 }
    ensures { result ≡ written_length n }
{
    first_at(START, n)
}

// All that the writer checks before it writes; the room by its length. Here and below the four numbers stay apart: so the C interface hands them in.
fn check_write(f: u16, c: u16, m: u16, n: u16, ends: &[u16], room_length: usize) -> Verdict
    ensures { result ≡ write_verdict f c m n ends.now room_length }
{
    let nets = n as usize;
    check_ranges(f as usize, c as usize, m as usize, nets)?;
    refuse_if(ends.len() < 2 * nets, Reason::RoomShort, Place::Nowhere)?;
    refuse_if(
        room_length < written_length(nets),
        Reason::RoomShort,
        Place::Nowhere,
    )?;
    check_ends(ends, f as usize, nets)
}

// Writes the head to the front of the room.
pub fn put_head(room: &mut [u8], f: u16, c: u16, m: u16, n: u16)
    requires { head_long ≤ length room.old }
    ensures { room.new ≡ onto (head_of f c m n) room.old }
{
    let head: [u16; HEAD] = [3, f, c, m, n];
    write_list(room, &head);
}

// Writes net i, between FPGAs v and w, where it stands in a job; what stands before it stays.
pub fn put_net(room: &mut [u8], i: usize, v: u16, w: u16)
    requires { (i < 65536) × (written_length i + 4 ≤ length room.old) }
    ensures { room.new ≡ take (written_length i) room.old ++ onto (bytes (v ∷ w ∷ [])) (drop (written_length i) room.old) }
{
    let ends = [v, w];
    write_behind(room, written_length(i), &ends);
}

// Writes the job to the front of the room.
fn put_job(f: u16, c: u16, m: u16, n: u16, ends: &[u16], room: &mut [u8])
    requires { (2 * n ≤ length ends.now) × (written_length n ≤ length room.old) }
    ensures { room.new ≡ onto (job_of f c m n ends.now) room.old }
{
    put_head(room, f, c, m, n);
    write_behind(room, START, &ends[..2 * n as usize]);
}

// The job of a board f, c, m with n nets, whose FPGAs stand in `ends`, two for each net, to the front of the room.
pub fn write_job(
    f: Fpga,
    c: Crossbar,
    m: u16,
    n: Net,
    ends: &[u16],
    room: &mut [u8],
) -> Result<usize, Refusal>
    ensures value { result ≡ answer (write_verdict f.0 c.0 m n.0 ends.now (length room.old)) (written_length n.0) }
    ensures room_after { room.new ≡ room_after (write_verdict f.0 c.0 m n.0 ends.now (length room.old)) (job_of f.0 c.0 m n.0 ends.now) room.old }
{
    check_write(f.0, c.0, m, n.0, ends, room.len())?;
    put_job(f.0, c.0, m, n.0, ends, room);
    Ok(written_length(n.0 as usize))
}
