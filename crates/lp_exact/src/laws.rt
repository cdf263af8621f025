//! Laws of conversion and typing. Each function's contract is a law; the bodies do nothing.
ghost use Rattle.lp_exact.specs.Laws.{ChurchRosser, Confluence, ContextsExtend, EmptyIsWellFormed, NormalFormsAreUnique, PreludeIsWellFormed, ProductsAreInjective, ReductionKeepsTypes, ReductsAreConvertible, SortsAreUnique, TypesAreConvertible, TypesHaveSorts};
ghost use Rattle.lp_exact.specs.FragmentLaws.{ConstantsAreOfFragment, ConstantsAreWellFormed, FragmentIsTyped, FullTypesAreNormal, NormalTypesAreNormal, NormalTypesConvert, NormalTypesDecide, ObjectsAreTyped};

/// Conversion is having a common reduct, so that a normal form is unique.
pub fn reduction_is_confluent()
    ensures confluence { Confluence }
    ensures church_rosser { ChurchRosser }
    ensures reducts { ReductsAreConvertible }
    ensures normal_forms { NormalFormsAreUnique }
{}

/// Products are convertible only where their parts are.
pub fn products_are_injective()
    ensures { ProductsAreInjective }
{}

/// Two types of one term are convertible, and convertible types have one sort.
pub fn types_are_unique()
    ensures types { TypesAreConvertible }
    ensures sorts { SortsAreUnique }
{}

/// A type of a term has a sort, and a term keeps its types when it is reduced.
pub fn reduction_keeps_types()
    ensures sorts { TypesHaveSorts }
    ensures kept { ReductionKeepsTypes }
{}

/// The signature and the contexts that the laws ask for.
pub fn well_formed_contexts()
    ensures prelude { PreludeIsWellFormed }
    ensures empty { EmptyIsWellFormed }
    ensures extended { ContextsExtend }
{}

/// Normal types are normal forms, and decide conversion of types of the fragment.
pub fn normal_types_decide()
    ensures converts { NormalTypesConvert }
    ensures normal { NormalTypesAreNormal }
    ensures full { FullTypesAreNormal }
    ensures decides { NormalTypesDecide }
{}

/// Objects and types of the fragment have their types.
pub fn fragment_is_typed()
    ensures objects { ObjectsAreTyped }
    ensures types { FragmentIsTyped }
{}

/// The prelude with constants of simple types is a well-formed signature of the fragment.
pub fn constants_are_well_formed()
    ensures well_formed { ConstantsAreWellFormed }
    ensures fragment { ConstantsAreOfFragment }
{}
