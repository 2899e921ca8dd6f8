// Lowest and highest IR, CC and NC where year-one revenue is known only between two figures.

ghost use Rattle.std.specs.Prelude.{◌≡◌};
ghost use Rattle.price_band.specs.PriceBand.{band_of, band_values};
ghost use Rattle.price_band.specs.BandLimits.{BandFits};
ghost use Rattle.fikrem_c.specs.BandResult.{band_end, bands_of};

use price_band::{Band, Bands};
use quoting_unit::results::{TOO_SHORT, result_of};
use reconciliation::signed;

// How many places a band has: IR, CC and NC, each lowest then highest.
const BAND: usize = 6;

fn band_places(band: Band) -> [i64; BAND]
    requires { BandFits band }
    ensures { result ≡ band_values band }
{
    [
        signed(band.lowest_ir),
        signed(band.highest_ir),
        signed(band.lowest_cc),
        signed(band.highest_cc),
        band.lowest_nc,
        band.highest_nc,
    ]
}

/// Lowest and highest IR, CC and NC of a request by a rate book, with these figures in cents in place of its field 08. Short figures are 14
/// before anything else.
#[tactic(auto, using(price_band::proofs::Theorems::Band::band_fits, price_band::proofs::Theorems::BandEnding::promised_band))]
#[unsafe(no_mangle)]
pub extern "C" fn fikrem_price_band(
    book: &[u8],
    request: &[u8],
    distribution_low: u64,
    distribution_high: u64,
    transmission_low: u64,
    transmission_high: u64,
    figures: &mut [i64],
) -> u64
    ensures { let bands = bands_of distribution_low distribution_high transmission_low transmission_high in
        let end = band_end (band_of book.now request.now bands) figures.old in
        (result ≡ end.result) × (figures.new ≡ end.figures) }
{
    if figures.len() < BAND {
        return TOO_SHORT;
    }
    let bands = Bands {
        distribution_low,
        distribution_high,
        transmission_low,
        transmission_high,
    };
    match price_band::price_band(book, request, bands) {
        Ok(band) => {
            figures[..BAND].copy_from_slice(&band_places(band));
            0
        }
        Err(refusal) => result_of(refusal, 0),
    }
}
