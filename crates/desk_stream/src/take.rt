// Packets taken from bytes that are there, and their lines collected.
ghost use Rattle.std.specs.Prelude.{◌≡◌, OnOk};
ghost use Rattle.desk_report.specs.Reads.{take_all as all_taken};
ghost use Rattle.desk_stream.specs.Held.{held_all};
ghost use Rattle.desk_stream.specs.Took.{Taken};
ghost use Rattle.desk_stream.specs.Known.{Owes};

use crate::End;
use crate::sink::Sink;
use desk_report::buffer::Bytes;
use desk_report::desk::{Desk, Next};
use std::io::Write;

// Takes the packets that are whole, and says how many bytes they are, or nothing where a refused length stops it. Their lines, from the first
// that is not written out, stand there alone then.
pub(crate) fn take_all<W: Write>(
    sink: Sink,
    desk: &mut Desk,
    lines: &mut Bytes<4096>,
    out: &mut W,
    input: &[u8],
) -> Result<Option<usize>, End>
    ensures took { Taken desk.old sink input.now desk.new result }
    ensures collected { OnOk result (lines.new ≡ held_all desk.old input.now) }
    ensures owes { OnOk result (Owes sink (W.contents out.old) (W.contents out.new) (all_taken desk.old input.now).written lines.new) }
{
    lines.clear();
    let mut used = 0;
    // No range, iterator or closure: each packet says where the next begins, or that none does.
    while used < input.len() {
        let (next, line) = desk.step(&input[used..]);
        sink.add(lines, out, line.as_slice())?;
        match next {
            Next::Used(n) => used += n,
            Next::More => return Ok(Some(used)),
            Next::Stop => return Ok(None),
        }
    }
    Ok(Some(used))
}
