// The charge, its reconciliation and its percentages, in whole cents.
#![tactic(auto)]

ghost use Rattle.std.specs.Prelude.{◌≡◌, ◌*◌, ◌<◌, ◌≤◌, cond, nat_abs, pos, ◌-ℤ◌};
ghost use Rattle.reconciliation.specs.Percent.{nearest, percent_of};
ghost use Rattle.reconciliation.specs.Reconciliation.{credit_of, reconciliation_of};
ghost use Rattle.field_values.specs.Limits.{highest_share};
ghost use Rattle.revenue.specs.RevenueLimits.{highest_incremental_revenue};
ghost use Rattle.reconciliation.specs.CostLimits.{percent_below, CostsWithin};
ghost use Rattle.reconciliation.specs.SignedLimit.{signed_below};

// A whole number of percent: the nearest; and beside it the one rounded down, with what that leaves of 100 times the numerator.
#[derive(Clone, Copy)]
pub struct WholePercent {
    pub rounded: i64,
    pub quotient: i64,
    pub remainder: u64,
}

// None where the divisor is 0.
pub type Percent = Option<WholePercent>;

// The costs that a connection enters: minimum scheme extension, capacity, customer enhancement
// extension, its capacity, distributor enhancement, transmission works, historical cost recovery,
// operating loading.
#[derive(Clone, Copy)]
pub struct Costs {
    pub me: u64,
    pub mc: u64,
    pub ce: u64,
    pub cc2: u64,
    pub de: u64,
    pub tw: u64,
    pub hr: u64,
    pub ol: u64,
}

#[derive(Clone, Copy)]
pub struct Reconciliation {
    pub me: u64,
    pub mc: u64,
    pub ce: u64,
    pub cc2: u64,
    pub tw: u64,
    pub hr: u64,
    pub ol: u64,
    pub ic: u64,
    pub ir: u64,
    pub cc: u64,
    pub nic: i64,
    pub nc: i64,
    // what a scheme that opens here costs
    pub x: u64,
    // cost entered, and what the company bears of it
    pub entered: u64,
    pub borne: u64,
    // CC/IC, CC/(CC+IR), NC/(CC+IR)
    pub reliance: Percent,
    pub upfront: Percent,
    pub nc_ratio: Percent,
}

// No TryFrom: below 2 to the 63rd nothing fails, and there would be a failure to take apart.
// Here and below a plain number under that limit: a type for it would be opened at once.
pub fn signed(x: u64) -> i64
    requires { x < signed_below }
    ensures { result ≡ pos x }
{
    x as i64
}

fn minus(a: u64, b: u64) -> i64
    requires { (a < signed_below) × (b < signed_below) }
    ensures { result ≡ pos a -ℤ pos b }
{
    signed(a) - signed(b)
}

fn nearest_percent(n: u64, divisor: u64) -> u64
    requires { (n < percent_below) × ((divisor < percent_below) × (0 < divisor)) }
    ensures { (result ≡ nearest n divisor) × (result < signed_below) }
{
    (200 * n + divisor) / (2 * divisor)
}

// The percentage that a figure is of a divisor, rounded down also below 0.
fn percent_of(n: i64, divisor: u64) -> Percent
    requires { (nat_abs n < percent_below) × (divisor < percent_below) }
    ensures { result ≡ percent_of n divisor }
{
    if divisor == 0 {
        return None;
    }
    let size = signed(nearest_percent(n.unsigned_abs(), divisor));
    let hundredfold = 100 * n;
    Some(WholePercent {
        rounded: if n < 0 { -size } else { size },
        quotient: hundredfold.div_euclid(signed(divisor)),
        remainder: hundredfold.rem_euclid(signed(divisor)) as u64,
    })
}

// a times the amount, where a is 1 with capacity charged and otherwise 0.
fn times(charged: bool, amount: u64) -> u64
    ensures { (result ≡ cond charged 1 0 * amount) × (result ≤ amount) }
{
    if charged { amount } else { 0 }
}

// The credit for incremental revenue at a share in ten-thousandths.
// IR and share are plain numbers with a limit each: a type for either would be opened at once.
fn credit_of(ir: u64, share: u16) -> u64
    requires { (ir ≤ highest_incremental_revenue) × (share ≤ highest_share) }
    ensures { (result ≡ credit_of ir share) × (result ≤ ir) }
{
    ir * u64::from(share) / 10_000
}

// The reconciliation of a connection's costs with its incremental revenue, with capacity charged or not.
// Seven costs go over by name: the eighth, the distributor's enhancement, is no figure of a reconciliation.
pub fn reconcile(costs: Costs, ir: u64, charged: bool, share: u16) -> Reconciliation
    requires { CostsWithin costs × (ir ≤ highest_incremental_revenue) × (share ≤ highest_share) }
    ensures { result ≡ reconciliation_of costs ir (cond charged 1 0) share }
{
    let Costs {
        me,
        mc,
        ce,
        cc2,
        de,
        tw,
        hr,
        ol,
    } = costs;
    let credit = credit_of(ir, share);
    let m = me + times(charged, mc);
    let used = m.min(credit);
    let not_charged = times(!charged, mc + cc2);
    let ic_borne = used + not_charged;
    let ic = me + mc + ce + cc2 + tw + hr + ol;
    let cc = m - used + ce + times(charged, cc2) + tw + hr + ol;
    let nc = minus(ir, ic_borne);
    Reconciliation {
        me,
        mc,
        ce,
        cc2,
        tw,
        hr,
        ol,
        ic,
        ir,
        cc,
        nic: minus(ic, ir),
        nc,
        x: me - me.min(credit) + ce,
        entered: ic + de,
        borne: ic_borne + de,
        reliance: percent_of(signed(cc), ic),
        upfront: percent_of(signed(cc), cc + ir),
        nc_ratio: percent_of(nc, cc + ir),
    }
}
