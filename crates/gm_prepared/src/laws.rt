// Laws of the definitions, for the crates above.
ghost use Rattle.std.specs.Prelude.{◌≡◌, map};
ghost use Rattle.gm_geom.specs.declared.geometry.Geometry.{Geometry};
ghost use Rattle.gm_shapes.specs.Edge.{edges_of};
ghost use Rattle.gm_prepared.specs.Edge.{numbered_edges, segment_of};

/// The numbered edges of a geometry are its edges, each once and in their order.
pub fn lists_each_edge()
    ensures { (geometry : Geometry) → map segment_of (numbered_edges geometry) ≡ edges_of geometry }
{}
