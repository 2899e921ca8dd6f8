// The figures of a reconciliation by place, since they cross to C.

ghost use Rattle.std.specs.Prelude.{◌≡◌, ◌≤◌, length};
ghost use Rattle.reconciliation.specs.FigureLimits.{FiguresWithin, RemainderWithin};
ghost use Rattle.reconciliation.specs.Figures.{figure_values, percent_figure, percent_is_there, percent_quotient, percent_remainder};
ghost use Rattle.quoting_unit.specs.Interface.{figure_places, figures_after};

use reconciliation::{Percent, Reconciliation, signed};

/// How many places the figures have.
pub const FIGURES: usize = 27;

// A percentage in four places: whether it is there, rounded, and the exact figure's quotient and remainder.
#[derive(Clone, Copy, Default)]
struct PercentPlaces {
    is_there: i64,
    figure: i64,
    quotient: i64,
    remainder: i64,
}

fn percent_places(percent: Percent) -> PercentPlaces
    requires { RemainderWithin percent }
    ensures is_there { result.is_there ≡ percent_is_there percent }
    ensures figure { result.figure ≡ percent_figure percent }
    ensures quotient { result.quotient ≡ percent_quotient percent }
    ensures remainder { result.remainder ≡ percent_remainder percent }
{
    match percent {
        Some(whole) => PercentPlaces {
            is_there: 1,
            figure: whole.rounded,
            quotient: whole.quotient,
            remainder: signed(whole.remainder),
        },
        None => PercentPlaces::default(),
    }
}

fn figure_places(r: Reconciliation) -> [i64; FIGURES]
    requires { FiguresWithin r }
    ensures { result ≡ figure_values r }
{
    let reliance = percent_places(r.reliance);
    let upfront = percent_places(r.upfront);
    let nc_ratio = percent_places(r.nc_ratio);
    [
        signed(r.me),
        signed(r.mc),
        signed(r.ce),
        signed(r.cc2),
        signed(r.tw),
        signed(r.hr),
        signed(r.ol),
        signed(r.ic),
        signed(r.ir),
        signed(r.cc),
        r.nic,
        r.nc,
        signed(r.x),
        signed(r.entered),
        signed(r.borne),
        reliance.is_there,
        reliance.figure,
        upfront.is_there,
        upfront.figure,
        nc_ratio.is_there,
        nc_ratio.figure,
        reliance.quotient,
        reliance.remainder,
        upfront.quotient,
        upfront.remainder,
        nc_ratio.quotient,
        nc_ratio.remainder,
    ]
}

/// The figures at the start of a lent buffer, in cents and percent; what lies past them is left alone.
pub fn write_figures(r: Reconciliation, figures: &mut [i64])
    requires { FiguresWithin r × (figure_places ≤ length figures.old) }
    ensures { figures.new ≡ figures_after r figures.old }
{
    let places = figure_places(r);
    figures[..FIGURES].copy_from_slice(&places);
}
