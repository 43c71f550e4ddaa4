// The law of drawings.
ghost use Rattle.pn_draft.specs.Laws.{DrawingLaw};

/// The drawing of some folders with leaves has exactly the folders, the leaves and the folders between.
pub fn drawing_law()
    ensures { DrawingLaw }
{}
