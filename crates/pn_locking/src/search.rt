// Places among keys that rise.
ghost use Rattle.std.specs.Prelude.{◌≡◌, ◌<◌, IfSome, length};
ghost use Rattle.pn_asked.specs.Rows.{is_in};
ghost use Rattle.pn_lock.specs.Kept.{Rises};
ghost use Rattle.pn_lock.specs.Locks.{place_of};

use pn_text::{PkgId, PkgName};

/// The place of an id.
pub(crate) fn place(ids: &[PkgId], id: &PkgId) -> Option<usize>
    requires { Rises ids.now }
    ensures place { result ≡ place_of id.now ids.now }
    ensures bound { IfSome result (λ n. n < length ids.now) }
{
    match ids.binary_search(id) {
        Ok(at) => Some(at),
        Err(_) => None,
    }
}

/// Whether a name is among these.
pub(crate) fn has(names: &[PkgName], name: &PkgName) -> bool
    requires { Rises names.now }
    ensures { result ≡ is_in names.now name.now }
{
    match names.binary_search(name) {
        Ok(_) => true,
        Err(_) => false,
    }
}
