// What of a manifest isn't built yet.
ghost use Rattle.std.specs.Prelude.{◌≡◌, option_map};
ghost use Rattle.pn_manifest.specs.Says.{said_of};
ghost use Rattle.pn_choice.specs.Built.{unbuilt_field};

use pn_manifest::Manifest;

/// The first field of a manifest that isn't empty and isn't built yet.
pub fn unbuilt_field(manifest: &Manifest) -> Option<&str>
    ensures { option_map (λ t. t.now) result ≡ unbuilt_field (said_of manifest.now) }
{
    if !manifest.overrides.is_empty() {
        return Some("pnpm.overrides");
    }
    if !manifest.peers.is_empty() {
        return Some("peerDependencies");
    }
    None
}
