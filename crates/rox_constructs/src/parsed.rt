//! Results of calls that open no entity, for callers that do.

ghost use Rattle.std.specs.Prelude.{◌≡◌};
ghost use Rattle.rox_constructs.specs.ParsedResults.{parsed_of};

use rox_grammar::failure::Failure;
use rox_values::parse_error::ParseError;

/// Returns this result with its failure as a `ParseError`, which callers that open entities return.
#[inline(always)]
pub fn parsed<'input>(read: Result<(), Failure>) -> Result<(), ParseError<'input>>
    ensures { result ≡ parsed_of read }
{
    match read {
        Ok(()) => Ok(()),
        Err(failure) => Err(ParseError::from(failure)),
    }
}
