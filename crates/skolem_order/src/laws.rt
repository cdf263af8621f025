//! Laws of the definitions. The functions' contracts have the laws; the bodies do nothing.
ghost use Rattle.skolem_order.specs.Laws.{
  EntriesAreCovered,
  LongerMapsChangeNothing,
  MetFormulasAreOrigins,
  MentionsPrecede,
  MentionsStandEarlier,
  NeededListIsOne,
  OriginFormulasAreClosed,
  OriginFormulasHaveNoAny,
  SpotsAreFound,
  TreesMeetOrigins,
};

/// The existential that stands in a signed form under a number is the one that is found there.
pub fn spots_are_found()
    ensures { SpotsAreFound }
{}

/// Each entry of a map that leads from a formula's normal form stands for an existential of the
/// signed formula. A variable that occurs in its formula belongs to a universal of the entry, or to
/// an existential that the map replaces by a term over these.
pub fn entries_are_covered()
    ensures { EntriesAreCovered }
{}

/// The origin formula of a ground term has no variable but those bound inside it.
pub fn origin_formulas_are_closed()
    ensures { OriginFormulasAreClosed }
{}

/// An argument or a Skolem term over the arguments is given for each variable of the quantifiers
/// around an origin.
pub fn origin_formulas_have_no_any()
    ensures { OriginFormulasHaveNoAny }
{}

/// An origin formula stays the same where its origin's map grows.
pub fn longer_maps_change_nothing()
    ensures { LongerMapsChangeNothing }
{}

/// A Skolem term comes before each one that mentions it.
pub fn mentions_precede()
    ensures { MentionsPrecede }
{}

/// In a list of the needed terms, each Skolem term that one mentions has an earlier place.
pub fn mentions_stand_earlier()
    ensures { MentionsStandEarlier }
{}

/// There is one list of the needed terms, where the root terms are well-formed and the symbols of
/// the origins are functions.
pub fn needed_list_is_one()
    ensures { NeededListIsOne }
{}

/// At each existential that a row's thin tree meets stands the origin of the term that is chosen,
/// and the formula there is the term's origin formula.
pub fn trees_meet_origins()
    ensures trees { TreesMeetOrigins }
    ensures formulas { MetFormulasAreOrigins }
{}
