// What wishes ask for.
ghost use Rattle.std.specs.Prelude.{◌≡◌, IfOk, IfErr};
ghost use Rattle.pn_plain.specs.Readings.{of_package};
ghost use Rattle.pn_choice.specs.Ways.{ReadsAs, IsUnasked};

use crate::way::WayFault;
use pn_spec::{Spec, SpecFault, Want};
use pn_text::{Memory, PkgName};
use pn_walk::Wish;
use std::alloc::Global;

/// A version of a package that is asked for.
#[derive(Drop)]
pub struct NamedWant {
    pub name: PkgName,
    pub want: Want,
}

/// What a wish's specifier asks for.
pub fn asked(alloc: Global, wish: &Wish) -> Result<NamedWant, WayFault>
    ensures reads { IfOk result (λ a. ReadsAs wish.now (of_package a.name a.want)) }
    ensures refused { IfErr result (IsUnasked wish.now) }
{
    match Spec::read(alloc, wish.specifier.as_str()) {
        Ok(Spec::Range(range)) => under(alloc, &wish.alias, Want::Range(range)),
        Ok(Spec::Tag(tag)) => under(alloc, &wish.alias, Want::Tag(tag)),
        Ok(Spec::Alias(name, want)) => Ok(NamedWant { name, want }),
        Ok(Spec::Workspace(_)) | Ok(Spec::Catalog(_)) => Err(WayFault::Unbuilt),
        Err(SpecFault::Unsupported) => Err(WayFault::Unsupported),
        Err(SpecFault::Memory) => Err(WayFault::Memory),
    }
}

// A version of the package of this name.
fn under(alloc: Global, name: &PkgName, want: Want) -> Result<NamedWant, WayFault>
    ensures asked { IfOk result (λ a. (a.name ≡ name.now) × (a.want ≡ want)) }
    ensures refused { IfErr result (λ e. e ≡ WayFault.Memory) }
{
    let name = name.copy(alloc)?;
    Ok(NamedWant { name, want })
}
