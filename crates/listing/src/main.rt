// Reads a job from standard input and prints its plan, or why it is refused.
#![tactic(auto)]

ghost use Rattle.std.specs.Io.{ReadsAtMost};

use list::{LISTING, list, listing_room};
use std::io;
use std::io::{Read, Write};
use text::so_far;

// Reads until the job's room is full or the input ends, and says how many bytes were read.
// A `while`, since a read gives as many bytes as it likes: none is counted by hand.
fn read_full<R: Read>(input: &mut R, job: &mut [u8]) -> io::Result<usize>
    ensures { ReadsAtMost result job.new }
{
    let mut done = 0;
    while done < job.len() {
        let n = input.read(&mut job[done..])?;
        if n == 0 {
            break;
        }
        done += n;
    }
    Ok(done)
}

// One byte more is read than the longest job has, so that a job that is too long is seen to be. What is printed is cut from the room's first
// `listing_room` bytes: that the room has so many is proved, and so many are enough for every listing.
fn main(rt: HostRuntime) -> io::Result<()> {
    let mut job = [0u8; 16395];
    let mut plan = [0u16; 4096];
    let mut scratch = [0u16; 32768];
    let mut room = [0u8; LISTING];
    let n = read_full(&mut rt.stdin(), &mut job)?;
    let end = list(&job[..n], &mut plan, &mut scratch, &mut room);
    rt.stdout().write_all(so_far(&room[..listing_room()], end))
}
