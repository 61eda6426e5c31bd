//! Bytes written whole.

ghost use Rattle.std.specs.Prelude.{◌≤◌, OnOk, OnErr};
ghost use Rattle.std.specs.Io.KnownBytes.{Appends};
ghost use Rattle.io_edge.specs.Faults.{HasCause};
ghost use Rattle.io_edge.specs.Sinks.{AppendsPrefix, concatenated};

use crate::{Failed, Sink};

/// Writes all bytes of a text, without taking memory. Each turn puts out at least one byte or ends
/// the loop. Where it fails, the sink's count of faults rose and a prefix of the text was written.
pub fn write_all<O: Sink>(out: &mut O, text: &[u8]) -> Result<(), Failed>
    ensures whole { OnOk result (Appends (O.written out.old) (O.written out.new) text.now) }
    ensures prefix { OnErr result (AppendsPrefix (O.written out.old) (O.written out.new) text.now) }
    ensures cause { HasCause (O.faults out.old) (O.faults out.new) result }
{
    let mut done = 0;
    'pieces: while done < text.len() {
        match out.write(&text[done..]) {
            Err(Failed) => return Err(Failed),
            Ok(count) => done += count,
        }
    }
    Ok(())
}

/// Writes several texts, one after the other, as `write_all` writes their whole.
pub fn write_pieces<O: Sink>(out: &mut O, pieces: &[&[u8]]) -> Result<(), Failed>
    ensures whole { OnOk result (Appends (O.written out.old) (O.written out.new) (concatenated pieces.now)) }
    ensures prefix { OnErr result (AppendsPrefix (O.written out.old) (O.written out.new) (concatenated pieces.now)) }
    ensures cause { HasCause (O.faults out.old) (O.faults out.new) result }
{
    let mut rest = pieces;
    'pieces: while let [piece, others @ ..] = rest {
        match write_all(out, piece) {
            Err(Failed) => return Err(Failed),
            Ok(()) => rest = others,
        }
    }
    Ok(())
}
