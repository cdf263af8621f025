//! What is written.
ghost use Rattle.std.specs.Prelude.{◌≡◌};
ghost use Rattle.dk_cli.specs.Steps.{answer_view};
ghost use Rattle.dk_cli.specs.Views.{output_bytes, output_view};

use crate::Refusal;

/// A text that was made, or one that stands in the program and takes no memory.
#[derive(Drop)]
pub enum Output {
    Made(Vec<u8>),
    Fixed(&'static str),
}

impl Output {
    pub fn bytes(&self) -> &[u8]
        ensures { result.now ≡ output_bytes self.now }
    {
        match self {
            Output::Made(text) => text.as_slice(),
            Output::Fixed(text) => text.as_bytes(),
        }
    }
}

/// An answer that was made.
pub fn made(answer: Result<Vec<u8>, Refusal>) -> Result<Output, Refusal>
    ensures { output_view result ≡ answer_view answer }
{
    match answer {
        Ok(text) => Ok(Output::Made(text)),
        Err(refusal) => Err(refusal),
    }
}
