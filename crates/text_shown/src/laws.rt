// What holds of every text of a file. Each function is there for its contract alone.
ghost use Rattle.text_shown.specs.Laws.{ShownFits, RefusedShowChangesNothing};

/// No text is longer than the longest, and a refused show leaves the output as it was.
#[tactic(auto, using(crate::proofs::Longest::file_text_short, crate::proofs::Theorems::Show::refused_show_changes_nothing))]
pub fn shown_texts()
    ensures fits { ShownFits }
    ensures refused { RefusedShowChangesNothing }
{}
