// The hot list of a job: its zones by their local numerators go to a lent list, by an order that any list of local numerators has. A layer
// above the account, which relies on its promises alone.
#![tactic(auto)]

mod ordering;

ghost use Rattle.std.specs.Prelude.{◌≡◌};
ghost use Rattle.refusals.specs.Refusals.{number_of};
ghost use Rattle.account.specs.Refusals.{account_refusal};
ghost use Rattle.hot_list.specs.HotList.{hot_zones};

use judges::Places;
use refusals::Refusal;

// The order of the hot list by itself, which the report asks for too.
pub use ordering::order;

// Works the hot list of the job: `zones` is lent n places for the zone numbers by falling L(i), equal ones by falling row sum of the weights
// that count and then by rising zone number, those left out last and by number, and is left as it was where the job is refused.
pub fn hot_list(n: usize, values: &[i32], weights: &[u8], zones: &mut [u8]) -> Result<(), Refusal>
    ensures number { number_of result ≡ account_refusal n values.now weights.now zones.old }
    ensures lent { zones.new ≡ hot_zones n values.now weights.now zones.old }
{
    judges::judge_lent(
        n,
        &[
            (values.len(), Places::Zones),
            (weights.len(), Places::Pairs),
            (zones.len(), Places::Zones),
        ],
    )?;
    let mut space: [i64; 64] = [0; 64];
    let locals = &mut space[..n];
    account::local_numerators(n, values, weights, locals)?;
    ordering::order(n, values, weights, locals, zones)
}
