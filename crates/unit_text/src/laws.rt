// What holds of every figure and every text. Each function is there for its contract alone.
ghost use Rattle.unit_text.specs.Laws.{FigureReadsBack, FigureExact};

/// Every number that a file can hold is shown as a text that reads as that number.
#[tactic(auto, using(crate::proofs::Theorems::ReadsBack::figure_reads_back))]
pub fn figure_reads_back()
    ensures { FigureReadsBack }
{}

/// A figure is what its own digits say, with as many decimals as stand behind its point.
#[tactic(auto, using(crate::proofs::Theorems::Exact::figure_exact))]
pub fn figure_exact()
    ensures { FigureExact }
{}
