//! Laws of the definitions. The functions' contracts have the laws; the bodies do nothing.
ghost use Rattle.step_compose.specs.Laws.{ComposedIsOne, CountsAreOne, FullIsImage};

/// The map that replaces all existentials leads to the form with all replaced, and this form's clause list has as many
/// clauses and literals whatever the symbols are.
pub fn full_maps_are_maps()
    ensures image { FullIsImage }
    ensures counts { CountsAreOne }
{}

/// There is one composed image at most.
pub fn composed_images_are_one()
    ensures { ComposedIsOne }
{}
