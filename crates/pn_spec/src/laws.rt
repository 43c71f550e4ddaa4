// Laws of specifiers in the subject's own words. The definitions by which `Spec` reads obey them.
ghost use Rattle.pn_spec.specs.Entries.{PutLaw};
ghost use Rattle.pn_spec.specs.Laws.{FormLaw, NameLaw, ProjectLaw, SpaceLaw};
ghost use Rattle.pn_spec.specs.Ranges.{ForeignLaw};
ghost use Rattle.pn_spec.specs.ReadingLaw.{ReadingLaw};

/// No text is of two of the prefixed forms, or of one of them and a range or tag.
pub fn form_law()
    ensures { FormLaw }
{}

/// What stands behind `workspace:` names one project, or none.
pub fn project_law()
    ensures { ProjectLaw }
{}

/// What stands behind `npm:` names one package.
pub fn name_law()
    ensures { NameLaw }
{}

/// Spaces and tabs at both ends of a specifier count for nothing.
pub fn space_law()
    ensures { SpaceLaw }
{}

/// No range has an `@` or a `:`. So what stands behind a package name's `@` is told from the name, and a prefixed form
/// from a range.
pub fn foreign_law()
    ensures { ForeignLaw }
{}

/// Behind a put into catalogs, its catalog and name find what was put, and all others what they found.
pub fn put_law()
    ensures { PutLaw }
{}

/// A text is at most one specifier, and none where `Spec::read` refuses it. One that `Catalogs::put` refuses is none that
/// an entry has. Want of memory aside.
pub fn reading_law()
    ensures { ReadingLaw }
{}
