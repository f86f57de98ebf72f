// Puts half of k nets on one crossbar and half on another, so that the ends at each FPGA are split as a round asks.
//
// Two pairings of the same things make cycles of even length: from a thing to its partner in the one pairing, to that one's
// partner in the other, and so on. So 0 and 1 can alternate round every cycle, and then both pairings split all things evenly.
// 1. The ends are paired by FPGA (left-over ones, one of an FPGA at most, with each other), and each with its net's other end.
//    Labels that alternate on both give every net a direction; at each FPGA as many nets leave as enter, but for one.
// 2. The nets are paired by the FPGA that they leave, and again by the one that they enter. Labels that alternate on both
//    split what leaves each FPGA, but for one, and what enters it, and all the nets in equal halves.
// With t leaving and h entering an FPGA, an even t or h is split exactly. For t + h odd one of the two is even, and the
// loads differ by 1. For t = h they differ by 0 or 2, and by 0 where t is even: so for t + h = 2m, since m is even.
#![tactic(auto)]

ghost use Rattle.std.specs.Prelude.{◌≡◌, ◌+◌, ◌≤◌, length};
ghost use Rattle.scratch.specs.Scratch.{most_nets};
ghost use Rattle.split.specs.Split.{NetsIn, Halved};
ghost use Rattle.split.specs.Stages.{Flipped, Directed, EndsIn, Oriented, DirectedNets, Coloured};

use pair::pair;
use scratch::{FLIP, LABELS, MATES};
use walk::alternate;

// The other end of the same net, for each end of k nets.
fn flip(others: &mut [u16], k: usize)
    requires { (length others.old ≡ k + k) × (k ≤ most_nets) }
    ensures { Flipped others.new k k }
{
    for i in 0..k {
        others[i] = (k + i) as u16;
        others[k + i] = i as u16;
    }
}

// A net leaves its first end: so the ends of a net whose first end has the label 1, "in", are swapped.
fn direct(ends: &mut [u16], labels: &[u16], k: usize)
    requires { (length ends.old ≡ k + k) × (length labels.now ≡ k + k) }
    ensures { Directed ends.old ends.new labels.now k k }
{
    for e in 0..k {
        if labels[e] == 1 {
            ends.swap(e, k + e);
        }
    }
}

// Directs the nets so that as many leave each FPGA as enter it, but for one.
fn orient(ends: &mut [u16], mates: &mut [u16], others: &mut [u16], labels: &mut [u16], k: usize)
    requires { EndsIn ends.old mates.old others.old labels.old k }
    ensures { Oriented ends.old ends.new k }
{
    flip(others, k);
    pair(ends, mates);
    alternate(mates, others, labels);
    direct(ends, labels, k);
}

// Labels the nets so that those that leave an FPGA are split, and those that enter it.
fn colour(first: &[u16], second: &[u16], out: &mut [u16], into: &mut [u16], labels: &mut [u16])
    requires { DirectedNets first.now second.now out.old into.old labels.old }
    ensures { Coloured first.now second.now labels.new }
{
    pair(first, out);
    pair(second, into);
    alternate(out, into, labels);
}

// The FPGAs of the k first ends stand at s[..k], those of the second ends at s[k..k + k]: each net's two ends may be swapped.
// Net e gets its label at s[LABELS + e].
pub fn split(s: &mut [u16], k: usize)
    requires { NetsIn s.old k }
    ensures { Halved s.old s.new k }
{
    let n = k + k;
    let (ends, rest) = s.split_at_mut(MATES);
    let (mates, rest) = rest.split_at_mut(FLIP - MATES);
    let (others, labels) = rest.split_at_mut(LABELS - FLIP);
    orient(
        &mut ends[..n],
        &mut mates[..n],
        &mut others[..n],
        &mut labels[..n],
        k,
    );
    let (first, second) = ends[..n].split_at(k);
    colour(
        first,
        second,
        &mut mates[..k],
        &mut others[..k],
        &mut labels[..k],
    );
}
