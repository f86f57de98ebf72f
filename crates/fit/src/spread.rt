// Refusal 25: the spread of the totals.
ghost use Rattle.std.specs.Prelude.{◌≡◌, ◌≤◌, length};
ghost use Rattle.laws.specs.Sum.{greatest};
ghost use Rattle.laws.specs.Row.{at};
ghost use Rattle.fit.specs.Fit.{spread_verdict};

use words::{Crossbar, Place, Reason, Verdict, first_refusal, refuse_if};

// The greatest of the totals, or 0 where there is none.
fn greatest_of(totals: &[u16]) -> u16
    ensures { result ≡ greatest (at totals.now) (length totals.now) }
{
    totals.iter().copied().max().unwrap_or(0)
}

// Refusal 25, with the lowest crossbar whose total is 2 or more below the greatest.
pub fn check_spread(totals: &[u16]) -> Verdict
    requires { length totals.now ≤ 128 }
    ensures { result ≡ spread_verdict (at totals.now) (length totals.now) }
{
    let most = greatest_of(totals) as usize;
    first_refusal(totals.len(), |x| {
        let low = totals[x] as usize + 2 <= most;
        refuse_if(low, Reason::Spread, Place::Crossbar(Crossbar(x as u16)))
    })
}
