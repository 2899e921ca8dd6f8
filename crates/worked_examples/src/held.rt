// A printed figure held against the computed one.
use printed_figures::printed::{Figure, PrintedSize};
use printed_figures::tolerance::{Bounds, capped};
use reconciliation::{Percent, Reconciliation};
use std::fmt;

// Figures, tolerance and distance in cents; percentages whole.
#[derive(Clone, Copy)]
pub struct Held {
    figure: Figure,
    printed: i64,
    // none where there is no such percentage: it lies off every printed one, and stands as a figure that none comes near
    computed: Option<i64>,
    // half the printed unit
    half: u64,
    tolerance: u64,
    off: Option<u64>,
    // whether the credit share was fitted to the printed charge
    fitted: bool,
}

impl Held {
    // A printed figure against the computed one, which may lie off by the bound besides.
    pub fn new(
        figure: Figure,
        printed: PrintedSize,
        r: &Reconciliation,
        bounds: &Bounds,
        fitted: bool,
    ) -> Held {
        let half = unit_of(printed) / 2;
        let printed = size_of(printed);
        let computed = computed_figure(r, figure);
        Held {
            figure,
            printed,
            computed,
            half,
            tolerance: half.saturating_add(bound_of(bounds, figure)),
            off: computed.map(|computed| printed.abs_diff(computed)),
            fitted,
        }
    }

    pub fn is_within(&self) -> bool {
        self.off.is_some_and(|off| off <= self.tolerance)
    }

    pub fn is_within_half(&self) -> bool {
        self.off.is_some_and(|off| off <= self.half)
    }

    // Where the share was fitted, the figures that rest on it.
    fn is_no_evidence(&self) -> bool {
        self.fitted
            && matches!(
                self.figure,
                Figure::Cc
                    | Figure::Borne
                    | Figure::Nc
                    | Figure::Reliance
                    | Figure::Upfront
                    | Figure::NcRatio
            )
    }
}

impl fmt::Display for Held {
    fn fmt<W: fmt::Write>(&self, f: &mut fmt::Formatter<W>) -> fmt::Result {
        let Held {
            figure,
            printed,
            computed,
            tolerance,
            ..
        } = *self;
        write!(f, "{figure} {printed} ")?;
        match computed {
            Some(computed) => write!(f, "{computed}")?,
            None => write!(f, "{}", capped(u64::MAX))?,
        }
        let within = if self.is_within() { "yes" } else { "NO" };
        write!(f, " {tolerance} {within}")?;
        if self.is_within_half() {
            write!(f, " half")?;
        }
        if self.is_no_evidence() {
            write!(f, " no evidence for CC")?;
        }
        Ok(())
    }
}

// In cents, or in percents.
fn size_of(printed: PrintedSize) -> i64 {
    match printed {
        PrintedSize::Dollars(dollars) => dollars.saturating_mul(100),
        PrintedSize::DollarsToTens(dollars) => dollars.saturating_mul(100),
        PrintedSize::DollarsToTenThousands(dollars) => dollars.saturating_mul(100),
        PrintedSize::Percent(percent) => percent,
    }
}

// The unit that a figure is printed to, in cents or in percents.
fn unit_of(printed: PrintedSize) -> u64 {
    match printed {
        PrintedSize::Dollars(_) => 100,
        PrintedSize::DollarsToTens(_) => 1_000,
        PrintedSize::DollarsToTenThousands(_) => 1_000_000,
        PrintedSize::Percent(_) => 1,
    }
}

fn cents(amount: u64) -> Option<i64> {
    i64::try_from(amount).ok()
}

fn percentage(percent: Percent) -> Option<i64> {
    percent.map(|whole| whole.rounded)
}

// A match picks the field, here and in bound_of: closures would name each figure and each field again.
// Two matches and not one: what was computed may be negative or none, and a bound may not.
// IDR and ITR are IR with one kind of revenue alone.
fn computed_figure(r: &Reconciliation, figure: Figure) -> Option<i64> {
    match figure {
        Figure::Idr | Figure::Itr | Figure::Ir => cents(r.ir),
        Figure::Mc => cents(r.mc),
        Figure::Cc2 => cents(r.cc2),
        Figure::Cc => cents(r.cc),
        Figure::Borne => cents(r.borne),
        Figure::Ic => cents(r.ic),
        Figure::Nic => Some(r.nic),
        Figure::Nc => Some(r.nc),
        Figure::Reliance => percentage(r.reliance),
        Figure::Upfront => percentage(r.upfront),
        Figure::NcRatio => percentage(r.nc_ratio),
    }
}

// Percentages are held exactly.
fn bound_of(bounds: &Bounds, figure: Figure) -> u64 {
    match figure {
        Figure::Idr | Figure::Itr | Figure::Ir => bounds.ir,
        Figure::Mc => bounds.mc,
        Figure::Cc2 => bounds.cc2,
        Figure::Cc => bounds.cc,
        Figure::Borne => bounds.borne,
        Figure::Ic => bounds.ic,
        Figure::Nic => bounds.nic,
        Figure::Nc => bounds.nc,
        Figure::Reliance | Figure::Upfront | Figure::NcRatio => 0,
    }
}

#[cfg(test)]
mod tests {
    use super::*;
    use std::test::Fail;

    #[test]
    fn no_percentage_lies_far_off(rt: HostRuntime) -> Result<(), Fail> {
        let nothing = Reconciliation {
            me: 0,
            mc: 0,
            ce: 0,
            cc2: 0,
            tw: 0,
            hr: 0,
            ol: 0,
            ic: 0,
            ir: 0,
            cc: 0,
            nic: 0,
            nc: 0,
            x: 0,
            entered: 0,
            borne: 0,
            reliance: None,
            upfront: None,
            nc_ratio: None,
        };
        let bounds = Bounds::default();
        let held = Held::new(
            Figure::Reliance,
            PrintedSize::Percent(100),
            &nothing,
            &bounds,
            false,
        );
        let line = format!(in rt.alloc(); "{held}")?;
        assert_eq!(rt; line.as_str(), "RELIANCE 100 10000000000000 0 NO");
        Ok(())
    }
}
