//! What holds of every run of the writer besides how its text reads.
ghost use Rattle.model.specs.Laws.{LawsOfRuns};

/// Whatever a document is asked for: its frames are the openings less the ends accepted; the refusals 11, 13, 14, 16, 17, 18 and 19 come exactly by what
/// was accepted before; text and space left make up the space at the beginning; None is wrapped once for each silent Some around it; and what is refused changes nothing.
pub fn laws_of_runs()
    ensures { LawsOfRuns 256 65535 }
{}
