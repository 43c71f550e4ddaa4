// The dep paths of instances.
ghost use Rattle.std.specs.Prelude.{◌≡◌, ◌<◌, IfOk, bytes_eq, length, map, slice_get, true};
ghost use Rattle.std.specs.List.{All, IsDistinct};
ghost use Rattle.pn_deppath.specs.Paths.{id_part, is_dep_path};
ghost use Rattle.pn_graph.specs.Lookups.{package_id};
ghost use Rattle.pn_dep_paths.specs.DepPaths.{AreDepPaths};

use crate::base::base_texts;
use crate::convert::{folders, outer_instances};
use crate::laws::paths_law;
use pn_deppath::with_ordinals;
use pn_graph::Plain;
use pn_instances::Instances;
use pn_text::{Memory, Text};
use std::alloc::Global;

/// The dep path of each instance, in their order.
pub fn dep_paths(alloc: Global, plain: &Plain, instances: &Instances) -> Result<Vec<Text>, Memory>
    requires packages { All (λ k. k.0 < length plain.now.packages) instances.now.packages }
    requires projects { length instances.now.roots ≡ length plain.now.projects }
    ensures texts { IfOk result (λ paths. AreDepPaths plain.now instances.now paths.items) }
    ensures paths { IfOk result (λ paths. All (λ p. is_dep_path p ≡ true) paths.items) }
    ensures ids { IfOk result (λ paths. map id_part paths.items ≡ map (λ k. package_id (slice_get plain.now.packages k.0)) instances.now.packages) }
    ensures once { IfOk result (λ paths. IsDistinct bytes_eq paths.items) }
{
    let converted = outer_instances(alloc, plain, instances)?;
    let folders = folders(alloc, plain)?;
    let texts = base_texts(alloc, &converted, &folders)?;
    paths_law();
    with_ordinals(alloc, &texts)
}
