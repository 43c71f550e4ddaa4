// Laws of the YAML subset, of the definitions by which texts are read.
ghost use Rattle.pn_yaml.specs.Laws.{ReadLaw};
ghost use Rattle.pn_yaml.specs.PlaceLaw.{PlaceLaw};

/// What is read has no key twice in a map, and is nested at most 64 deep.
pub fn read_law()
    ensures { ReadLaw }
{}

/// A refusal names the first line at fault: the lines before it say something, and no text that begins with the whole
/// lines up to it is read.
pub fn place_law()
    ensures { PlaceLaw }
{}
