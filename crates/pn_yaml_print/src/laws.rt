// Laws of printing, of the definitions by which data is printed and texts are read.
ghost use Rattle.pn_yaml_print.specs.Laws.{PrintLaw};
ghost use Rattle.pn_yaml_print.specs.StableLaw.{StableLaw};

/// The text of data says the same data, each scalar plain where it was printed plain.
pub fn print_law()
    ensures { PrintLaw }
{}

/// Data as it is read back is printed as the same bytes.
pub fn stable_law()
    ensures { StableLaw }
{}
