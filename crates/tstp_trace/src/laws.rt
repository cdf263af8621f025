//! Laws on problems and traces.
ghost use Rattle.std.specs.Prelude.{List};
ghost use Rattle.tptp_text.specs.declared.Item.{Item};
ghost use Rattle.tstp_trace.specs.Laws.{HasOneProblem, HasOneTrace};

/// Items have one problem or one fault, and one trace or one fault.
pub fn one_answer()
    ensures problem { (items : List Item) → HasOneProblem items }
    ensures trace { (items : List Item) → HasOneTrace items }
{}
