// Recolours the nets on two crossbars by the rule of a round: the heart of the algorithm.
//
// Only the nets on the two crossbars x and y can move, and only from the one to the other. Their ends are collected in the lent
// scratch, in net order, and crate `split` gives each of them a label, 0 or 1: half of all nets have each label, and at each
// FPGA the ends are shared as the rule asks (how, and why an even width is needed, stands at the top of that crate).
// The labels are then written back as crossbars by a second walk over the nets, which finds the same nets in the same order:
// the nets need no list of their own.
// `split` wants an even number of nets. Where it is odd, a dummy net is added, both ends at an FPGA that no board has, so that
// no load counts it. The dummy's label becomes that of y: without the dummy x has one net more than y, as the rule allows.
#![tactic(auto)]

ghost use Rattle.std.specs.Prelude.{◌≡◌, ◌≤◌, length};
ghost use Rattle.board.specs.Rule.{on_two_test};
ghost use Rattle.scratch.specs.Scratch.{most_nets, scratch_long};
ghost use Rattle.recolour.specs.Recolour.{RecolourAsked, RecolouredIn};
ghost use Rattle.recolour.specs.Steps.{place, CountedOn, evened, with_ends, Places, RoomFor, Collected, CollectedAll, label_for_y, crossbar_by, Labelled, WrittenBack};

use job::Job;
use scratch::LABELS;
use split::split;
use words::Crossbar;

// The FPGA of both ends of the dummy: no board has it. A number and no `Option`, as the lent scratch holds plain numbers.
const NOWHERE: u16 = 256;

// The two crossbars, as an assignment writes them.
#[derive(Clone, Copy)]
struct Two {
    x: u16,
    y: u16,
}

impl Two {
    fn holds(self, crossbar: u16) -> bool
        ensures { result ≡ on_two_test self.x self.y crossbar }
    {
        crossbar == self.x || crossbar == self.y
    }

    // The crossbar of a label, where `mark` is the label for y.
    fn by_label(self, mark: u16, label: u16) -> u16
        ensures { result ≡ crossbar_by self.x self.y mark label }
    {
        if label == mark { self.y } else { self.x }
    }
}

// With a dummy net, where the number of nets is odd.
fn evened(count: usize) -> usize
    requires { count ≤ most_nets }
    ensures { result ≡ evened count }
{
    count + count % 2
}

// How many nets are on x or y.
fn count_on(job: &Job, plan: &[u16], two: Two) -> usize
    requires { job.now.head.n ≤ length plan.now }
    ensures { CountedOn plan.now two.x two.y job.now.head.n result }
{
    plan[..job.head.n].iter().filter(|x| two.holds(**x)).count()
}

// The ends of the e-th of k nets, put down as `split` wants them: the first ends in front, the second ends behind.
// By their places in the scratch, since the contract of `split` says where ends and labels stand.
fn put_ends(s: &mut [u16], k: usize, e: usize, v: u16, w: u16)
    requires { Places s.old k e }
    ensures { s.new ≡ with_ends s.old k e v w }
{
    s[e] = v;
    s[k + e] = w;
}

// The ends of all nets on x or y, in net order, among those of k nets.
fn collect(job: &Job, plan: &[u16], two: Two, s: &mut [u16], k: usize)
    requires { RoomFor job.now plan.now two.x two.y s.old k }
    ensures { Collected job.now plan.now two.x two.y k s.old s.new job.now.head.n (place plan.now two.x two.y job.now.head.n) }
{
    // How many nets so far are on x or y.
    let mut e = 0;
    for net in 0..job.head.n {
        if two.holds(plan[net]) {
            let (v, w) = job.ends(net);
            put_ends(s, k, e, v as u16, w as u16);
            e += 1;
        }
    }
}

// Collects the nets on x or y for `split`, with the dummy where it is needed, and says how many they are without it.
fn gather(job: &Job, plan: &[u16], two: Two, s: &mut [u16]) -> usize
    requires { RecolourAsked job.now plan.now two.x two.y s.old }
    ensures { CollectedAll job.now plan.now two.x two.y s.old s.new result }
{
    let count = count_on(job, plan, two);
    let k = evened(count);
    collect(job, plan, two, s, k);
    if count < k {
        put_ends(s, k, count, NOWHERE, NOWHERE);
    }
    count
}

// The label of the nets that are put on y. A number, as the lent scratch holds it.
fn label_for_y(s: &[u16], count: usize) -> u16
    requires { (count ≤ most_nets) × (scratch_long ≤ length s.now) }
    ensures { result ≡ label_for_y s.now count }
{
    if count < evened(count) {
        s[LABELS + count]
    } else {
        1
    }
}

// Puts each net that is on x or y on the crossbar of its label: the e-th of them in net order has the e-th label of `count`.
fn write_back(job: &Job, plan: &mut [u16], two: Two, s: &[u16], count: usize)
    requires { Labelled job.now plan.old s.now count }
    ensures { let n = job.now.head.n in WrittenBack plan.old plan.new n two.x two.y s.now (label_for_y s.now count) n (place plan.old two.x two.y n) }
{
    let mark = label_for_y(s, count);
    // How many nets so far are on x or y.
    let mut e = 0;
    for net in 0..job.head.n {
        if two.holds(plan[net]) {
            plan[net] = two.by_label(mark, s[LABELS + e]);
            e += 1;
        }
    }
}

// Recolours the nets on x and y, which document 01 calls A and B, in the assignment of the job's nets at the front of `plan`.
pub fn recolour(job: &Job, plan: &mut [u16], x: Crossbar, y: Crossbar, s: &mut [u16])
    requires { RecolourAsked job.now plan.old x.0 y.0 s.old }
    ensures { RecolouredIn job.now plan.old plan.new x.0 y.0 s.old s.new }
{
    let two = Two { x: x.0, y: y.0 };
    let count = gather(job, plan, two, s);
    split(s, evened(count));
    write_back(job, plan, two, s, count);
}
