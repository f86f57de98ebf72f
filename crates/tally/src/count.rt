// Counters, each filled by one walk over the nets.
ghost use Rattle.std.specs.Prelude.{◌≡◌, Bool, ℕ, ◌≤◌, ◌<◌, length};
ghost use Rattle.laws.specs.Sum.{when};
ghost use Rattle.laws.specs.Row.{at};
ghost use Rattle.laws.specs.Count.{Counted};
ghost use Rattle.board.specs.Netlist.{Netlist};
ghost use Rattle.job.specs.Board.{board_of};
ghost use Rattle.board.specs.Board.{ends_at, degree, load, total, InRange};
ghost use Rattle.tally.specs.Picked.{PicksTrue, PicksOnes, ends_picked, nets_picked};

use job::Job;

// The ends at each FPGA of those nets that the test picks.
fn count_ends<F: Fn(usize) -> bool>(job: &Job, picks: F) -> [u16; 256]
    requires { (i : ℕ) → i < job.now.head.n → F.pre picks i }
    ensures { (t : ℕ → Bool) → PicksTrue (F.post picks) t job.now.head.n → Counted result 256 (ends_picked (board_of job.now) t) }
{
    // Fixed memory: a counter for each FPGA that a board can have.
    let mut counts = [0u16; 256];
    for i in 0..job.head.n {
        if picks(i) {
            let (v, w) = job.ends(i);
            counts[v] += 1;
            counts[w] += 1;
        }
    }
    counts
}

// The degrees of all FPGAs.
pub fn degrees(job: &Job) -> [u16; 256]
    ensures { Counted result 256 (degree (board_of job.now)) }
{
    count_ends(job, |_| true)
}

// The loads of all FPGAs at crossbar x.
pub fn loads_on(job: &Job, plan: &[u16], x: usize) -> [u16; 256]
    requires { job.now.head.n ≤ length plan.now }
    ensures { Counted result 256 (λ v. load (board_of job.now) (at plan.now) v x) }
{
    count_ends(job, |i| plan[i] as usize == x)
}

// The nets on each crossbar, of those of the first n that the test picks. Not one function with `count_ends`: a net adds to two counters there,
// to one here, and a closure that gave both would be no plainer.
fn count_nets<F: Fn(usize) -> bool>(plan: &[u16], n: usize, picks: F) -> [u16; 128]
    requires callable { (i : ℕ) → i < n → F.pre picks i }
    requires every_net { (n ≤ 4096) × (n ≤ length plan.now) }
    requires in_range { (i : ℕ) → i < n → at plan.now i < 128 }
    ensures { (g : ℕ → ℕ) → PicksOnes (F.post picks) g n → Counted result 128 (nets_picked (at plan.now) g n) }
{
    let mut counts = [0u16; 128];
    for i in 0..n {
        if picks(i) {
            counts[plan[i] as usize] += 1;
        }
    }
    counts
}

// Net i ends at FPGA v; at one end only, since a checked net has two different ends.
fn ends_at(job: &Job, v: usize, i: usize) -> bool
    requires { i < job.now.head.n }
    ensures { ends_at (board_of job.now) v i ≡ when result 1 }
{
    let (first, second) = job.ends(i);
    first == v || second == v
}

// The loads of FPGA v at all crossbars.
pub fn loads_of(job: &Job, plan: &[u16], v: usize) -> [u16; 128]
    requires every_net { job.now.head.n ≤ length plan.now }
    requires in_range { InRange (board_of job.now) (at plan.now) }
    ensures { Counted result 128 (load (board_of job.now) (at plan.now) v) }
{
    count_nets(plan, job.head.n, |i| ends_at(job, v, i))
}

// The totals of all crossbars, of any job with n nets. The number stands beside the plan, since a lent plan may be longer and the clause speaks of n.
pub fn totals_of(plan: &[u16], n: usize) -> [u16; 128]
    requires every_net { (n ≤ 4096) × (n ≤ length plan.now) }
    requires in_range { (i : ℕ) → i < n → at plan.now i < 128 }
    ensures { (J : Netlist) → J.n ≡ n → Counted result 128 (total J (at plan.now)) }
{
    count_nets(plan, n, |_| true)
}
