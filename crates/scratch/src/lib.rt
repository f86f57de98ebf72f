// The lent scratch: where its four regions stand, and how all is zero again in the end.
#![tactic(auto)]

ghost use Rattle.std.specs.Prelude.{◌≡◌, ◌≤◌, length};
ghost use Rattle.scratch.specs.Scratch.{cleared, scratch_long};

// The nets of the largest job.
pub const MOST_NETS: usize = 4096;
// A region holds a number for each net end.
pub const REGION: usize = 2 * MOST_NETS;
// The FPGA of each net end: the first ends of all nets, then the second ends.
pub const ENDS: usize = 0;
// The partner of each end; then, for each net, its partner among those that leave an FPGA.
pub const MATES: usize = REGION;
// The other end of the same net; then, for each net, its partner among those that enter an FPGA.
pub const FLIP: usize = 2 * REGION;
// Out or in for each end; then, for each net, on which of the two crossbars it is: 0 or 1, as lent memory holds plain numbers.
pub const LABELS: usize = 3 * REGION;
// The least length of the scratch.
pub const SCRATCH: usize = 4 * REGION;

// The least length is zero; room beyond it stays as it was.
pub fn clear_scratch(s: &mut [u16])
    requires { scratch_long ≤ length s.old }
    ensures { s.new ≡ cleared scratch_long s.old }
{
    s[ENDS..SCRATCH].fill(0);
}
