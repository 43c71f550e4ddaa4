// Laws of what is published.
ghost use Rattle.pn_published.specs.Choice.{ChoiceLaw};
ghost use Rattle.pn_published.specs.Refusals.{PublishedLaw};

/// A tree publishes at most one shelf under a name, there is at most one reason why it doesn't, and never both.
pub fn published_law()
    ensures { PublishedLaw }
{}

/// What is chosen is the greatest held, else the latest, else the greatest of those that satisfy all ranges.
pub fn choice_law()
    ensures { ChoiceLaw }
{}
