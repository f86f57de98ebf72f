// Labels the items of two pairings with 0 and 1, so that every item differs from both of its partners.
// Item, partner in p, that one's partner in q, and so on, is a cycle with an even number of items: the labels just alternate.
#![tactic(auto)]

ghost use Rattle.std.specs.Prelude.{◌+◌, ◌<◌, length};
ghost use Rattle.walk.specs.Walk.{Matched, Alternated};
ghost use Rattle.walk.specs.Going.{Passing};

// What stands for a label that is still to come: lent memory holds plain numbers.
const NO_LABEL: u16 = 2;

// Labels the cycle of a, if it has no labels yet: an item, its partner in p, and on to that one's partner in q.
// A `while`, since the walk follows the pairings and counts nothing.
fn visit(p: &[u16], q: &[u16], labels: &mut [u16], a: usize)
    requires passing { Passing p.now q.now labels.old a }
    requires known { a < length p.now }
    ensures { Passing p.now q.now labels.new (a + 1) }
{
    let mut item = a;
    while labels[item] == NO_LABEL {
        let partner = p[item] as usize;
        labels[item] = 0;
        labels[partner] = 1;
        item = q[partner] as usize;
    }
}

// Item k has the partners p[k] and q[k], and gets its label in labels[k].
pub fn alternate(p: &[u16], q: &[u16], labels: &mut [u16])
    requires { Matched p.now q.now labels.old }
    ensures { Alternated p.now q.now labels.new }
{
    labels.fill(NO_LABEL);
    for a in 0..labels.len() {
        visit(p, q, labels, a);
    }
}
