//! An output in the form that is asked for.
ghost use Rattle.std.specs.Prelude.{◌≡◌, IfErr, IfOk};
ghost use Rattle.json_lines.specs.Lines.{json_lines};
ghost use Rattle.json_lines.specs.Forms.{written_as};

use crate::fault::RunFault;
use json_lines::{Form, JsonLines};
use replay_core::ReplayFault;
use replay_report::Pieces;
use std::alloc::{AllocError, Global};

/// A text in pieces in the form that is asked for.
pub(crate) fn pieces_as(alloc: Global, form: Form, text: Pieces) -> Result<Pieces, RunFault>
    ensures ok { IfOk result (λ output. output ≡ written_as form text) }
    ensures err { IfErr result (λ fault. fault ≡ RunFault.Replay ReplayFault.Memory) }
{
    match form {
        Form::Text => Ok(text),
        Form::Json => match json_pieces(alloc, &text) {
            Ok(json) => Ok(json),
            Err(AllocError) => Err(RunFault::Replay(ReplayFault::Memory)),
        },
    }
}

fn json_pieces(alloc: Global, text: &Pieces) -> Result<Pieces, AllocError>
    ensures { IfOk result (λ json. json ≡ json_lines text.now) }
{
    let json = json_of_pieces(alloc, text)?;
    Pieces::of_text(alloc, json)
}

/// The objects of the lines of a text, which may go on from one piece into the next.
fn json_of_pieces(alloc: Global, text: &Pieces) -> Result<Vec<u8>, AllocError>
    ensures { IfOk result (λ json. json.items ≡ json_lines text.now) }
{
    let mut json = Vec::new(alloc);
    let mut lines = JsonLines::new(alloc);
    for piece in text.pieces() {
        lines.push(&mut json, piece.bytes())?;
    }
    lines.end(&mut json)?;
    Ok(json)
}
