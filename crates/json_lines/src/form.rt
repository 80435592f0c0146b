//! The form of an output.
ghost use Rattle.std.specs.Prelude.{◌≡◌, IfOk};
ghost use Rattle.json_lines.specs.Forms.{written_as};

use crate::stream::json_of;
use std::alloc::{AllocError, Global};

/// The form of an output.
#[derive(Clone, Copy, Debug, PartialEq, Eq)]
pub enum Form {
    /// Lines of words.
    Text,
    /// An object of JSON for each of these lines.
    Json,
}

/// A text in the form that is asked for.
///
/// # Errors
///
/// Out of memory.
pub fn text_as(alloc: Global, form: Form, text: Vec<u8>) -> Result<Vec<u8>, AllocError>
    ensures { IfOk result (λ output. output.items ≡ written_as form text.items) }
{
    match form {
        Form::Text => Ok(text),
        Form::Json => json_of(alloc, &text),
    }
}
