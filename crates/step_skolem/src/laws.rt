//! Laws of the definitions. The functions' contracts have the laws; the bodies do nothing.
ghost use Rattle.step_skolem.specs.Laws.{CarriedIsImage, ChainIsImage, EmptyLeadsBack, ImageHasNoVacuous, ImageIsOne, MapIsOne, UnchangedWithoutExistentials};

/// One map at most leads from a form without a vacuous quantifier to another, and a map leads to one form, which
/// has no vacuous quantifier either. The empty map leads to the form itself.
pub fn images_are_one()
    ensures map { MapIsOne }
    ensures image { ImageIsOne }
    ensures no_vacuous { ImageHasNoVacuous }
    ensures empty { EmptyLeadsBack }
{}

/// A form without existentials has the empty map alone, which leads to the form itself.
pub fn forms_stay_without_existentials()
    ensures { UnchangedWithoutExistentials }
{}

/// Two maps one after the other are one map.
pub fn chains_are_images()
    ensures { ChainIsImage }
{}

/// A map carried to a form that differs by order and grouping of `And` and `Or` alone is a map of that form, and
/// the two images differ alike.
pub fn carried_maps_are_maps()
    ensures { CarriedIsImage }
{}
