//! Laws of what files give. None of these functions does anything but name the laws that it rests on.
ghost use Rattle.laws_given.specs.Given.{GivenBegins, GivenHasTexts, GivenIsResolution, LoadedBegins, SaidIsProject};
ghost use Rattle.laws_given.specs.Texts.{AdjustedAreTexts, CatalogsAreTexts, DocumentsAreTexts, ExpandedAreTexts};
ghost use Rattle.laws_given.specs.Texts.{FilesAreTexts, RequirementsAreNamed, TextsAreHad};

/// A requirement that is read names names.
pub fn requirements_are_named()
    ensures { RequirementsAreNamed }
{}

/// A document that is read has versions, and requirements that name names.
pub fn documents_are_texts()
    ensures { DocumentsAreTexts }
{
    requirements_are_named();
}

/// So has a catalog that is loaded.
pub fn catalogs_are_texts()
    ensures { CatalogsAreTexts }
{
    documents_are_texts();
}

/// And so has an adjusted one.
pub fn adjusted_are_texts()
    ensures { AdjustedAreTexts }
{}

/// The eligible versions of such a catalog are versions, and the targets of its requirements are named.
pub fn texts_are_had()
    ensures { TextsAreHad }
{
    ul_index::laws::eligible_same();
}

/// What a project file says has a name, a version, and requirements, extras and groups that name names.
pub fn files_are_texts()
    ensures { FilesAreTexts }
{
    requirements_are_named();
}

/// A project whose groups are extras has names and versions, where the project had.
pub fn expanded_are_texts()
    ensures { ExpandedAreTexts }
{}

/// A catalog that is loaded begins with the project's package.
pub fn loaded_begins()
    ensures { LoadedBegins }
{}

/// A project that bytes say, with its groups as extras, is one.
pub fn said_is_project()
    ensures { SaidIsProject }
{
    ul_marker::laws::reading_is_grammar();
}

/// What files give is a resolution, whose catalog begins with the project.
pub fn given_is_resolution()
    ensures resolution { GivenIsResolution }
    ensures begins { GivenBegins }
{
    loaded_begins();
    said_is_project();
}

/// What files give has names in their normal form, and versions.
pub fn given_has_texts()
    ensures { GivenHasTexts }
{
    files_are_texts();
    expanded_are_texts();
    catalogs_are_texts();
    adjusted_are_texts();
    texts_are_had();
}
