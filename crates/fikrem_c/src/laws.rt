// Theorems over the functions whose definitions stand here. Each function is there for its contract alone, a law on those definitions.

ghost use Rattle.fikrem_c.specs.Laws.{BandResults, BookReadAlone, RefusedBandChangesNothing, RequestReadAlone, VersionTold};

/// The version is the header's.
pub fn version_told()
    ensures { VersionTold }
{}

/// The band's result is 0 exactly where there is a band and room for it, otherwise it has the number of a refusal that the call can come to; and
/// a refused band leaves the lent figures as they were.
#[tactic(auto, using(crate::proofs::Theorems::BandResults::band_results, crate::proofs::Theorems::BandResults::refused_band_changes_nothing))]
pub fn band_results()
    ensures numbers { BandResults }
    ensures unchanged { RefusedBandChangesNothing }
{}

/// The result of a file that is judged alone is 0 exactly where it stands, otherwise it has number 1, 2 or 3.
#[tactic(auto, using(crate::proofs::Theorems::FileResult::book_read_alone, crate::proofs::Theorems::FileResult::request_read_alone))]
pub fn files_read_alone()
    ensures book { BookReadAlone }
    ensures request { RequestReadAlone }
{}
