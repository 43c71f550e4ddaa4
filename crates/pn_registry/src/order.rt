// Files in byte order of their paths.
ghost use Rattle.std.specs.Prelude.{IfOk, Some, map, nat_eq, refl};
ghost use Rattle.std.specs.Cmp.{on_equiv, on_per, on_po, on_total, partial_equiv_from_equiv};
ghost use Rattle.std.specs.Cmp.Lexicographic.{nat_list_cmp_total, nat_list_eq_equiv, pointwise, slice_cmp, texts_po, texts_ties};
ghost use Rattle.std.specs.Ordering.{nat_cmp};
ghost use Rattle.pn_registry.specs.Files.{KeepsPaths};
ghost use Rattle.pn_registry.specs.Listed.{file_of, text_of};

use crate::list::{Files, PackageFile, listed};
use pn_text::Memory;
use std::cmp::Ordering;

/// Puts files in order, each path once.
pub fn in_order(mut files: Vec<PackageFile>) -> Result<Files, Memory>
    ensures { IfOk result (λ list. KeepsPaths (map file_of files.items) list) }
{
    files.sort()?;
    files.dedup();
    Ok(listed(files))
}

impl PartialEq for PackageFile {
    ghost eq = { λ a b. pointwise nat_eq (text_of a) (text_of b) };

    ghost laws = { on_per text_of (partial_equiv_from_equiv nat_list_eq_equiv) };

    fn eq(&self, other: &PackageFile) -> bool {
        self.path.as_str() == other.path.as_str()
    }
}

impl Eq for PackageFile {
    ghost laws = { on_equiv text_of nat_list_eq_equiv };
}

impl PartialOrd for PackageFile {
    ghost partial_cmp = { λ a b. Some (slice_cmp nat_cmp (text_of a) (text_of b)) };

    ghost laws = { on_po text_of texts_po };

    fn partial_cmp(&self, other: &PackageFile) -> Option<Ordering> {
        Some(self.cmp(other))
    }
}

impl Ord for PackageFile {
    ghost cmp = { λ a b. slice_cmp nat_cmp (text_of a) (text_of b) };

    ghost total = { on_total text_of nat_list_cmp_total };

    ghost matches_partial_cmp = { λ a b. refl };

    ghost matches_eq = { λ a b. texts_ties (text_of a) (text_of b) };

    fn cmp(&self, other: &PackageFile) -> Ordering {
        self.path.as_str().cmp(other.path.as_str())
    }
}
