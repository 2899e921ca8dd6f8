// What document 000 prints for its worked examples, and the inputs of the pricings that are held to it.
ghost use Rattle.std.specs.Prelude.{◌≡◌, length, sum_by};
ghost use Rattle.printed_figures.specs.Printed.{pricing_count, figure_count};
ghost use Rattle.printed_figures.specs.declared.printed.PrintedPricing.{PrintedPricing};

use PrintedSize::{Dollars, DollarsToTenThousands, DollarsToTens, Percent};
use std::fmt;

// By how much at most the inputs lie off document 000's unrounded ones, half a unit each.
#[derive(Clone, Copy)]
pub struct Units {
    // of a year-one revenue, in ten-thousandths of a cent: 5,000 where it was rounded to cents
    pub revenue: u64,
    // of the tariff factors and of the credit share, in hundred-millionths: 5,000 where they were
    // rounded to ten-thousandths
    pub distribution_tariff: u64,
    pub transmission_tariff: u64,
    pub share: u64,
    // of the costs that are charged, and of those that aren't, in cents
    pub charged: u64,
    pub not_charged: u64,
    // of the charge that the printed NC was worked out from, in cents
    pub printed_charge: u64,
}

// Zeros spelled out: a constant's value calls no function, and so no default().
const NO_REVENUE: Units = Units {
    revenue: 0,
    distribution_tariff: 0,
    transmission_tariff: 0,
    share: 0,
    charged: 0,
    not_charged: 0,
    printed_charge: 0,
};

// 1a to 1c: the posted charge is a decision, and the share is fitted to it
const POSTED_CHARGE: Units = Units {
    revenue: 5_000,
    share: 5_000,
    ..NO_REVENUE
};

// 1e to 1g: the inverse tariff factors
const INVERSE_TARIFF: Units = Units {
    revenue: 5_000,
    transmission_tariff: 5_000,
    ..NO_REVENUE
};

// 2a, 2b: 1.568062 and the inverse tariff factors; NC follows a charge printed to 10 dollars
const PHASED_IN: Units = Units {
    distribution_tariff: 5_000,
    printed_charge: 500,
    ..INVERSE_TARIFF
};

// 3a, 3c, 3d: the loading's present value is printed to the dollar
const LOADING: Units = Units {
    charged: 50,
    ..NO_REVENUE
};

const LOADING_RECAST: Units = Units {
    not_charged: 50,
    ..NO_REVENUE
};

// 3b: the blended transmission tariff factors; transmission works to the dollar, loading to the cent
const BLENDED: Units = Units {
    transmission_tariff: 5_000,
    charged: 51,
    ..NO_REVENUE
};

// the works, and what yearly charges recover, to the dollar each
const BLENDED_RECAST: Units = Units {
    transmission_tariff: 5_000,
    charged: 50,
    not_charged: 50,
    ..NO_REVENUE
};

#[derive(Clone, Copy, PartialEq, Eq)]
pub enum Figure {
    Idr,
    Itr,
    Mc,
    Cc2,
    Cc,
    Borne,
    Ic,
    Ir,
    Nic,
    Nc,
    Reliance,
    Upfront,
    NcRatio,
}

// By the name that document 000 prints.
impl fmt::Display for Figure {
    fn fmt<W: fmt::Write>(&self, f: &mut fmt::Formatter<W>) -> fmt::Result {
        f.write_str(match self {
            Figure::Idr => "IDR",
            Figure::Itr => "ITR",
            Figure::Mc => "MC",
            Figure::Cc2 => "CC2",
            Figure::Cc => "CC",
            Figure::Borne => "BORNE",
            Figure::Ic => "IC",
            Figure::Ir => "IR",
            Figure::Nic => "NIC",
            Figure::Nc => "NC",
            Figure::Reliance => "RELIANCE",
            Figure::Upfront => "UPFRONT",
            Figure::NcRatio => "NCRATIO",
        })
    }
}

// A figure as printed, and the unit that it is printed to.
#[derive(Clone, Copy)]
pub enum PrintedSize {
    Dollars(i64),
    DollarsToTens(i64),
    DollarsToTenThousands(i64),
    Percent(i64),
}

// A pricing that is held to document 000: the example's name, the files with its rate book and its
// request, and what is printed for it.
pub struct PrintedPricing {
    pub example: &'static str,
    pub book: &'static str,
    pub request: &'static str,
    pub units: Units,
    pub figures: &'static [(Figure, PrintedSize)],
}

static PRICINGS: [PrintedPricing; 23] = [
    // 1a, distribution revenue alone
    PrintedPricing {
        example: "1a",
        book: "1a_rates.bin",
        request: "1a_distribution.bin",
        units: POSTED_CHARGE,
        figures: &[(Figure::Idr, Dollars(10_669))],
    },
    // 1a, transmission revenue alone
    PrintedPricing {
        example: "1a",
        book: "1a_rates.bin",
        request: "1a_transmission.bin",
        units: POSTED_CHARGE,
        figures: &[(Figure::Itr, Dollars(3_823))],
    },
    // 1a
    PrintedPricing {
        example: "1a",
        book: "1a_rates.bin",
        request: "1a_job.bin",
        units: POSTED_CHARGE,
        figures: &[
            (Figure::Mc, Dollars(3_883)),
            (Figure::Cc, Dollars(1_330)),
            (Figure::Ic, Dollars(5_783)),
            (Figure::Ir, Dollars(14_492)),
            (Figure::Nic, Dollars(-8_710)),
            (Figure::Nc, Dollars(10_040)),
            (Figure::Reliance, Percent(23)),
            (Figure::Upfront, Percent(8)),
            (Figure::NcRatio, Percent(63)),
        ],
    },
    // 1b
    PrintedPricing {
        example: "1b",
        book: "1b_rates.bin",
        request: "1b_job.bin",
        units: POSTED_CHARGE,
        figures: &[
            (Figure::Cc2, Dollars(1_323)),
            (Figure::Cc, Dollars(2_330)),
            (Figure::Ic, Dollars(8_105)),
            (Figure::Ir, Dollars(14_492)),
            (Figure::Nic, Dollars(-6_387)),
            (Figure::Nc, Dollars(8_717)),
            (Figure::Reliance, Percent(29)),
            (Figure::Upfront, Percent(14)),
            (Figure::NcRatio, Percent(52)),
        ],
    },
    // 1c
    PrintedPricing {
        example: "1c",
        book: "1c_rates.bin",
        request: "1c_job.bin",
        units: POSTED_CHARGE,
        figures: &[
            (Figure::Cc, Dollars(3_653)),
            (Figure::Ic, Dollars(8_105)),
            (Figure::Ir, Dollars(14_492)),
            (Figure::Nic, Dollars(-6_387)),
            (Figure::Nc, Dollars(10_040)),
            (Figure::Reliance, Percent(45)),
            (Figure::Upfront, Percent(20)),
            (Figure::NcRatio, Percent(55)),
        ],
    },
    // 1d
    PrintedPricing {
        example: "1d",
        book: "1d_rates.bin",
        request: "1d_job.bin",
        units: NO_REVENUE,
        figures: &[
            (Figure::Mc, Dollars(1_323)),
            (Figure::Cc, Dollars(2_723)),
            (Figure::Ic, Dollars(2_723)),
            (Figure::Ir, Dollars(0)),
            (Figure::Nic, Dollars(2_723)),
            (Figure::Nc, Dollars(0)),
            (Figure::Reliance, Percent(100)),
            (Figure::Upfront, Percent(100)),
            (Figure::NcRatio, Percent(0)),
        ],
    },
    // 1e, distribution revenue alone
    PrintedPricing {
        example: "1e",
        book: "1e_rates.bin",
        request: "1e_distribution.bin",
        units: INVERSE_TARIFF,
        figures: &[(Figure::Idr, Dollars(4_775))],
    },
    // 1e, transmission revenue alone
    PrintedPricing {
        example: "1e",
        book: "1e_rates.bin",
        request: "1e_transmission.bin",
        units: INVERSE_TARIFF,
        figures: &[(Figure::Itr, Dollars(3_824))],
    },
    // 1e
    PrintedPricing {
        example: "1e",
        book: "1e_rates.bin",
        request: "1e_job.bin",
        units: INVERSE_TARIFF,
        figures: &[
            (Figure::Mc, Dollars(1_080)),
            (Figure::Borne, Dollars(5_589)),
            (Figure::Cc, Dollars(11_476)),
            (Figure::Ic, Dollars(17_065)),
            (Figure::Ir, Dollars(8_598)),
            (Figure::Nic, Dollars(8_467)),
            (Figure::Nc, Dollars(3_009)),
            (Figure::Reliance, Percent(67)),
            (Figure::Upfront, Percent(57)),
            (Figure::NcRatio, Percent(15)),
        ],
    },
    // 1f: identical to 1e's
    PrintedPricing {
        example: "1f",
        book: "1f_rates.bin",
        request: "1f_job.bin",
        units: INVERSE_TARIFF,
        figures: &[
            (Figure::Cc, Dollars(11_476)),
            (Figure::Ic, Dollars(17_065)),
            (Figure::Ir, Dollars(8_598)),
            (Figure::Nic, Dollars(8_467)),
            (Figure::Nc, Dollars(3_009)),
            (Figure::Reliance, Percent(67)),
            (Figure::Upfront, Percent(57)),
            (Figure::NcRatio, Percent(15)),
        ],
    },
    // 1g
    PrintedPricing {
        example: "1g",
        book: "1g_rates.bin",
        request: "1g_job.bin",
        units: INVERSE_TARIFF,
        figures: &[
            (Figure::Cc, Dollars(31_476)),
            (Figure::Ic, Dollars(37_065)),
            (Figure::Ir, Dollars(8_598)),
            (Figure::Nic, Dollars(28_467)),
            (Figure::Nc, Dollars(3_009)),
            (Figure::Reliance, Percent(85)),
            (Figure::Upfront, Percent(79)),
            (Figure::NcRatio, Percent(8)),
        ],
    },
    // 2a, distribution revenue alone
    PrintedPricing {
        example: "2a",
        book: "2a_rates.bin",
        request: "2a_distribution.bin",
        units: PHASED_IN,
        figures: &[(Figure::Idr, Dollars(144_453))],
    },
    // 2a, transmission revenue alone
    PrintedPricing {
        example: "2a",
        book: "2a_rates.bin",
        request: "2a_transmission.bin",
        units: PHASED_IN,
        figures: &[(Figure::Itr, Dollars(73_742))],
    },
    // 2a: charge and credit are printed to 10 dollars
    PrintedPricing {
        example: "2a",
        book: "2a_rates.bin",
        request: "2a_job.bin",
        units: PHASED_IN,
        figures: &[
            (Figure::Mc, Dollars(51_700)),
            (Figure::Borne, DollarsToTens(32_730)),
            (Figure::Cc, DollarsToTens(164_170)),
            (Figure::Ic, Dollars(196_900)),
            (Figure::Ir, Dollars(218_194)),
            (Figure::Nic, Dollars(-21_294)),
            (Figure::Nc, Dollars(185_464)),
            (Figure::Reliance, Percent(83)),
            (Figure::Upfront, Percent(43)),
            (Figure::NcRatio, Percent(49)),
        ],
    },
    // 2b
    PrintedPricing {
        example: "2b",
        book: "2b_rates.bin",
        request: "2b_job.bin",
        units: PHASED_IN,
        figures: &[
            (Figure::Mc, Dollars(35_110)),
            (Figure::Cc, DollarsToTens(25_580)),
            (Figure::Ic, Dollars(58_310)),
            (Figure::Ir, Dollars(218_194)),
            (Figure::Nic, Dollars(-159_884)),
            (Figure::Nc, Dollars(185_464)),
            (Figure::Reliance, Percent(44)),
            (Figure::Upfront, Percent(10)),
            (Figure::NcRatio, Percent(76)),
        ],
    },
    // 3a: capacity is printed as 1.94 million dollars
    PrintedPricing {
        example: "3a",
        book: "3a_rates.bin",
        request: "3a_job.bin",
        units: LOADING,
        figures: &[
            (Figure::Mc, DollarsToTenThousands(1_940_000)),
            (Figure::Ic, Dollars(2_255_121)),
            (Figure::Ir, Dollars(2_981_335)),
            (Figure::Nic, Dollars(-726_214)),
        ],
    },
    // 3b
    PrintedPricing {
        example: "3b",
        book: "3b_rates.bin",
        request: "3b_job.bin",
        units: BLENDED,
        figures: &[
            (Figure::Ic, Dollars(6_619_823)),
            (Figure::Ir, Dollars(6_774_890)),
            (Figure::Nic, Dollars(-155_067)),
        ],
    },
    // 3c
    PrintedPricing {
        example: "3c",
        book: "3c_rates.bin",
        request: "3c_job.bin",
        units: LOADING,
        figures: &[
            (Figure::Ic, Dollars(1_995_121)),
            (Figure::Ir, Dollars(2_923_023)),
            (Figure::Nic, Dollars(-927_902)),
        ],
    },
    // 3d
    PrintedPricing {
        example: "3d",
        book: "3d_rates.bin",
        request: "3d_job.bin",
        units: LOADING,
        figures: &[
            (Figure::Ic, Dollars(2_275_121)),
            (Figure::Ir, Dollars(2_981_335)),
            (Figure::Nic, Dollars(-706_214)),
        ],
    },
    // 3a*
    PrintedPricing {
        example: "3a*",
        book: "3a_recast_rates.bin",
        request: "3a_recast_job.bin",
        units: LOADING_RECAST,
        figures: &[
            (Figure::Cc, Dollars(2_144_000)),
            (Figure::Ic, Dollars(2_255_121)),
            (Figure::Ir, Dollars(2_981_335)),
            (Figure::Nic, Dollars(-726_214)),
            (Figure::Nc, Dollars(2_870_214)),
            (Figure::Reliance, Percent(95)),
            (Figure::Upfront, Percent(42)),
            (Figure::NcRatio, Percent(56)),
        ],
    },
    // 3b*
    PrintedPricing {
        example: "3b*",
        book: "3b_recast_rates.bin",
        request: "3b_recast_job.bin",
        units: BLENDED_RECAST,
        figures: &[
            (Figure::Cc, Dollars(3_289_337)),
            (Figure::Ic, Dollars(6_619_823)),
            (Figure::Ir, Dollars(6_774_890)),
            (Figure::Nic, Dollars(-155_067)),
            (Figure::Nc, Dollars(3_444_404)),
            (Figure::Reliance, Percent(50)),
            (Figure::Upfront, Percent(33)),
            (Figure::NcRatio, Percent(34)),
        ],
    },
    // 3c*
    PrintedPricing {
        example: "3c*",
        book: "3c_recast_rates.bin",
        request: "3c_recast_job.bin",
        units: LOADING_RECAST,
        figures: &[
            (Figure::Cc, Dollars(1_884_000)),
            (Figure::Ic, Dollars(1_995_121)),
            (Figure::Ir, Dollars(2_923_023)),
            (Figure::Nic, Dollars(-927_902)),
            (Figure::Nc, Dollars(2_811_902)),
            (Figure::Reliance, Percent(94)),
            (Figure::Upfront, Percent(39)),
            (Figure::NcRatio, Percent(58)),
        ],
    },
    // 3d*
    PrintedPricing {
        example: "3d*",
        book: "3d_recast_rates.bin",
        request: "3d_recast_job.bin",
        units: LOADING_RECAST,
        figures: &[
            (Figure::Cc, Dollars(2_164_000)),
            (Figure::Ic, Dollars(2_275_121)),
            (Figure::Ir, Dollars(2_981_335)),
            (Figure::Nic, Dollars(-706_214)),
            (Figure::Nc, Dollars(2_870_214)),
            (Figure::Reliance, Percent(95)),
            (Figure::Upfront, Percent(42)),
            (Figure::NcRatio, Percent(56)),
        ],
    },
];

// The pricings that are held to document 000.
pub fn pricings() -> &'static [PrintedPricing]
    ensures pricings { length result.now ≡ pricing_count }
    ensures figures { sum_by (λ (pricing : PrintedPricing). length pricing.figures.now) result.now ≡ figure_count }
{
    &PRICINGS
}
