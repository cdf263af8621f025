//! Laws of texts. Each function's contract is a law; the bodies do nothing.
ghost use Rattle.lp_term.specs.Prelude.{prelude};
ghost use Rattle.dedukti_read.specs.Laws.{CommandsAreOne, ReadingIsOne, TokensAreOne};
ghost use Rattle.dedukti_read.specs.Printable.{ArePrintable, DeclaredIsPrintable, IdentifiersAreNames, PrintIsAnswered, PrintIsRead, PrintIsReadAlone};

/// Bytes begin with one token, tokens with one command, and bytes are read as one development.
pub fn texts_are_read_once()
    ensures tokens { TokensAreOne }
    ensures commands { CommandsAreOne }
    ensures developments { ReadingIsOne }
{}

/// The text of a printable development is read as it, and as no other, and the reader answers it unless it is
/// nested too deep.
pub fn prints_are_read()
    ensures read { PrintIsRead }
    ensures alone { PrintIsReadAlone }
    ensures answered { PrintIsAnswered }
{}

/// What is printable: the prelude, and terms whose variables are bound and whose symbols are declared.
pub fn typed_terms_are_printable()
    ensures prelude { ArePrintable prelude }
    ensures declared { DeclaredIsPrintable }
    ensures identifiers { IdentifiersAreNames }
{}
