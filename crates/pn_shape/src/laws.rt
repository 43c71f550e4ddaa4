// Laws of the graph of a walk's end.
ghost use Rattle.pn_shape.specs.ShapeLaws.{ShapeLaw};

/// The end of a walk has one value as a graph, and the dependencies of a node there are exactly the edges that it asked for
/// and that lead somewhere.
pub fn shape_law()
    ensures { ShapeLaw }
{}
