//! The usage text.
ghost use Rattle.std.specs.Prelude.{◌≡◌};
ghost use Rattle.words.specs.Usage.{usage_text};

/// The usage text: a line for each form of the command line.
pub fn usage() -> &'static str
    ensures { result.now ≡ usage_text }
{
    "ekskon convert PROBLEM TRACE [--limit N] [--workers N]
ekskon steps PROBLEM TRACE [--workers N]
ekskon extract PROBLEM TRACE [--workers N]
ekskon expansion PROBLEM TRACE [--limit N] [--workers N]
ekskon check FILE
ekskon generate N [--workers N]
ekskon dedukti PROBLEM TRACE [--limit N] [--workers N]
ekskon dkcheck FILE
ekskon --help
"
}
