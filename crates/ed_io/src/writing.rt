ghost use Rattle.std.specs.Prelude.{◌<◌, [], take, length, IfOk, OnOk, OnErr};
ghost use Rattle.std.specs.Io.{WritesAtMost};
ghost use Rattle.ed_io.specs.Bytes.{Added, AddedFront};
ghost use Rattle.ed_io.specs.Faults.{HasCause};

use crate::{Failed, Sink};

/// Writes all bytes to the sink, however few of them it takes per call.
///
/// # Errors
/// `Failed` where a write failed or took no byte of a piece that isn't empty. A beginning of the
/// bytes was written.
pub fn write_all<O: Sink>(sink: &mut O, bytes: &[u8]) -> Result<(), Failed>
    ensures written { OnOk result (Added (O.held sink.old) bytes.now (O.held sink.new)) }
    ensures cut_off { OnErr result (AddedFront (O.held sink.old) bytes.now (O.held sink.new)) }
    ensures cause { HasCause (O.faults sink.old) (O.faults sink.new) result }
{
    let mut done = 0;
    while done < bytes.len() {
        done += write_some(sink, &bytes[done..])?;
    }
    Ok(())
}

// One write of a piece that isn't empty: it takes at least one byte or fails.
fn write_some<O: Sink>(sink: &mut O, piece: &[u8]) -> Result<usize, Failed>
    requires { 0 < length piece.now }
    ensures bound { WritesAtMost result piece.now }
    ensures some_taken { IfOk result (λ n. 0 < n) }
    ensures added { IfOk result (λ n. Added (O.held sink.old) (take n piece.now) (O.held sink.new)) }
    ensures not_added { OnErr result (Added (O.held sink.old) [] (O.held sink.new)) }
    ensures cause { HasCause (O.faults sink.old) (O.faults sink.new) result }
{
    match sink.write(piece) {
        Ok(0) => Err(Failed),
        answer => answer,
    }
}
