// A law of manifests in the subject's own words.
ghost use Rattle.pn_manifest.specs.Laws.{ManifestLaw};

/// A manifest's lists say of each key what the object in its field has under it; all other fields are passed over.
pub fn manifest_law()
    ensures { ManifestLaw }
{}
