//! Laws of plans. Each function's contract is a law; the bodies do nothing.
ghost use Rattle.plan_symbols.specs.Laws.{InstancesAreOver, RootsAreWellFormed, StepsAreOver, ThinsAreOver};

/// Each symbol in a step's formula is the problem's or a Skolem symbol.
pub fn steps_are_over_known_symbols()
    ensures { StepsAreOver }
{}

/// The terms and literals of each instance that a root needs are well-formed, and so are the terms of its thin tree; each symbol in
/// them is the problem's or a Skolem symbol.
pub fn instances_are_over_known_symbols()
    ensures instances { InstancesAreOver }
    ensures thins { ThinsAreOver }
{}

/// The terms from which a plan's Skolem terms come are well-formed.
pub fn roots_are_well_formed()
    ensures { RootsAreWellFormed }
{}
