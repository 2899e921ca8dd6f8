// Upstream capacity, tier by tier: LV mains, distribution substation, HV feeder, zone substation,
// sub-transmission.
#![tactic(auto)]

ghost use Rattle.std.specs.Prelude.{◌≡◌, ◌<◌, ◌≤◌};
ghost use Rattle.capacity.specs.Capacity.{bespoke_allowed, tier_allowed, first_not_allowed, rate_used, tier_cost, cost_at, capacity_cost};
ghost use Rattle.field_values.specs.Limits.{tier_count, highest_rate, highest_demand};
ghost use Rattle.capacity.specs.CapacityLimits.{highest_tier_cost, highest_capacity_cost};
ghost use Rattle.capacity.specs.TierLimits.{TiersWithin, DemandsWithin};

use field_values::limits::TIERS;

// Mode (0 posted, 1 extension-like, 2 bespoke), posted rate and bespoke rate of each tier. A mode is
// a byte, of which pricing takes any; the three rows lie as in the request and in the book.
// Their limits are asked where costs are taken: which bespoke rates are allowed is told of any tiers.
#[derive(Clone, Copy)]
pub struct Tiers {
    pub modes: [u8; TIERS],
    pub posted: [u32; TIERS],
    pub bespoke: [u32; TIERS],
}

// A bespoke rate is above 150% or below 80% of a posted rate that isn't 0.
fn bespoke_allowed(posted: u32, bespoke: u32) -> bool
    ensures { result ≡ bespoke_allowed posted bespoke }
{
    let posted = u64::from(posted);
    let bespoke = u64::from(bespoke);
    posted != 0 && (posted * 150 < bespoke * 100 || bespoke * 100 < posted * 80)
}

fn rate_used(mode: u8, posted: u32, bespoke: u32) -> u32
    ensures { result ≡ rate_used mode posted bespoke }
{
    if mode == 2 { bespoke } else { posted }
}

fn tier_cost(mode: u8, rate: u32, demand: u32) -> u64
    requires { (rate ≤ highest_rate) × (demand ≤ highest_demand) }
    ensures { (result ≡ tier_cost mode rate demand) × (result ≤ highest_tier_cost) }
{
    if mode == 1 {
        0
    } else {
        u64::from(rate) * u64::from(demand) / 100
    }
}

impl Tiers {
    fn allows(&self, tier: usize) -> bool
        requires { tier < tier_count }
        ensures { result ≡ tier_allowed self.now tier }
    {
        self.modes[tier] != 2 || bespoke_allowed(self.posted[tier], self.bespoke[tier])
    }

    fn cost_at(&self, demands: &[u32; TIERS], tier: usize) -> u64
        requires { TiersWithin self.now × DemandsWithin demands.now × (tier < tier_count) }
        ensures { (result ≡ cost_at self.now demands.now tier) × (result ≤ highest_tier_cost) }
    {
        let mode = self.modes[tier];
        let rate = rate_used(mode, self.posted[tier], self.bespoke[tier]);
        tier_cost(mode, rate, demands[tier])
    }

    // The first tier, counted from 1, whose bespoke rate isn't allowed.
    pub fn first_not_allowed(&self) -> Option<usize>
        ensures { result ≡ first_not_allowed self.now }
    {
        (0..TIERS)
            .find(|tier| !self.allows(*tier))
            .map(|tier| tier + 1)
    }

    // What the demands of the five tiers cost.
    pub fn capacity_cost(&self, demands: &[u32; TIERS]) -> u64
        requires { TiersWithin self.now × DemandsWithin demands.now }
        ensures { (result ≡ capacity_cost self.now demands.now) × (result ≤ highest_capacity_cost) }
    {
        (0..TIERS).map(|tier| self.cost_at(demands, tier)).sum()
    }
}
