// Refusal 26: the totals as they are written.
ghost use Rattle.std.specs.Prelude.{◌≡◌, ◌*◌, ◌≤◌, length};
ghost use Rattle.laws.specs.Row.{at};
ghost use Rattle.words.specs.Number.{word};
ghost use Rattle.audit.specs.Audit.{totals_verdict};

use words::number::read;
use words::{Crossbar, Place, Reason, Verdict, first_refusal, refuse_if};

// Refusal 26, with the lowest crossbar whose total is not the one that is written.
pub fn check_totals(written: &[u8], totals: &[u16]) -> Verdict
    requires few { length totals.now ≤ 128 }
    requires all_written { 2 * length totals.now ≤ length written.now }
    ensures { result ≡ totals_verdict (at totals.now) (λ x. word written.now (2 * x)) (length totals.now) }
{
    first_refusal(totals.len(), |x| {
        let wrong = read(written, 2 * x) != totals[x];
        let crossbar = Place::Crossbar(Crossbar(x as u16));
        refuse_if(wrong, Reason::WrittenTotal, crossbar)
    })
}
