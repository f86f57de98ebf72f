// Pairs items, net ends or nets, by the FPGA that each stands at.
#![tactic(auto)]

ghost use Rattle.std.specs.Prelude.{◌≡◌, ◌<◌, length, replicate, None};
ghost use Rattle.laws.specs.Row.{at};
ghost use Rattle.pair.specs.Pair.{fpga_count, ItemsIn, Pairing};
ghost use Rattle.pair.specs.Making.{linked, Blank, PairedUpTo, LeftWaiting, PairsAll};

// The FPGAs of the largest board, and one more for a dummy net.
const FPGAS: usize = 257;
// No item has this number, so that it says of an item that it is free: lent memory holds plain numbers.
const NO_MATE: u16 = 65535;

// Items i and j become mates.
fn link(mates: &mut [u16], i: u16, j: u16)
    requires { (i < length mates.old) × (j < length mates.old) }
    ensures { mates.new ≡ linked mates.old i j }
{
    mates[i as usize] = j;
    mates[j as usize] = i;
}

// Pairs items of one FPGA, and puts down the item that waits at each FPGA. The places are lent, and not handed back: they would stand on the stack twice.
fn gather(fpgas: &[u16], mates: &mut [u16], wait: &mut [Option<u16>; FPGAS])
    requires blank { Blank fpgas.now mates.old }
    requires none_waits { wait.old ≡ replicate fpga_count None }
    ensures { PairedUpTo (at fpgas.now) (length fpgas.now) mates.new wait.new (length fpgas.now) }
{
    for (i, fpga) in fpgas.iter().enumerate() {
        let v = *fpga as usize;
        let here = i as u16;
        match wait[v] {
            None => wait[v] = Some(here),
            Some(j) => {
                link(mates, here, j);
                wait[v] = None;
            }
        }
    }
}

// Pairs the items that wait with each other: their number is even, so that none is left.
fn sweep(wait: &[Option<u16>; FPGAS], mates: &mut [u16])
    requires { LeftWaiting (length mates.old) mates.old wait.now }
    ensures { PairsAll (length mates.old) mates.old mates.new }
{
    let mut carry = None;
    for w in wait {
        if let Some(j) = *w {
            match carry {
                None => carry = Some(j),
                Some(i) => {
                    link(mates, i, j);
                    carry = None;
                }
            }
        }
    }
}

// Pairs the items so that each FPGA has at most one item whose mate stands elsewhere.
// Item k stands at FPGA fpgas[k], and its mate is written to mates[k].
pub fn pair(fpgas: &[u16], mates: &mut [u16])
    requires { ItemsIn fpgas.now mates.old }
    ensures { Pairing fpgas.now mates.new }
{
    mates.fill(NO_MATE);
    let mut wait = [None; FPGAS];
    gather(fpgas, mates, &mut wait);
    sweep(&wait, mates);
}
