// Small plain graphs.
ghost use Rattle.pn_plain.specs.GraphRows.{GraphRows};

/// The plain graphs of small inputs, or why there is none: an alias; the first edge in order that is refused; an optional
/// edge that is absent; projects of the workspace.
pub fn graph_rows()
    ensures { GraphRows }
{}
