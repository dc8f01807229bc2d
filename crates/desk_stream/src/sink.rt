// Where lines go. They are collected in a fixed memory, which is written out where the next line has no room in it, and always before the
// next read, so that no line waits for a packet that has yet to come.
ghost use Rattle.std.specs.Prelude.{◌≡◌, ◌≤◌, ◌++◌, [], length, OnOk};
ghost use Rattle.desk_stream.specs.Ran.{Goes};
ghost use Rattle.desk_stream.specs.Held.{held};
ghost use Rattle.desk_stream.specs.Known.{Wrote, Owes};

use crate::End;
use desk_report::buffer::Bytes;
use std::io::Write;

// Where lines go but for the writer, which is lent for each call: a struct of both would be made at each.
#[derive(Clone, Copy)]
pub struct Sink {
    // Whether a write that fails ends the run; else its lines are dropped. Asked in `write` alone, so no type of sinks is made of it.
    pub needed: bool,
}

impl Sink {
    // Writes bytes. That a write which fails ends the run where lines are needed is a clause of each call: no value keeps it that could have an invariant.
    pub(crate) fn write<W: Write>(self, out: &mut W, bytes: &[u8]) -> Result<(), End>
        ensures goes { Goes self result }
        ensures wrote { OnOk result (Wrote self (W.contents out.old) (W.contents out.new) bytes.now) }
    {
        if out.write_all(bytes).is_err() && self.needed {
            return Err(End::Unwritten);
        }
        Ok(())
    }

    // Writes out the lines that stand there.
    pub(crate) fn write_out<W: Write>(self, lines: &mut Bytes<4096>, out: &mut W) -> Result<(), End>
        ensures goes { Goes self result }
        ensures wrote { OnOk result (Wrote self (W.contents out.old) (W.contents out.new) lines.old) }
        ensures empty { OnOk result (lines.new ≡ []) }
    {
        self.write(out, lines.as_slice())?;
        lines.clear();
        Ok(())
    }

    // Adds a line. Where it has no room, what stands there is written out first.
    pub(crate) fn add<W: Write>(
        self,
        lines: &mut Bytes<4096>,
        out: &mut W,
        line: &[u8],
    ) -> Result<(), End>
        requires { length line.now ≤ 4096 }
        ensures goes { Goes self result }
        ensures held { OnOk result (lines.new ≡ held lines.old line.now) }
        ensures owes { OnOk result (Owes self (W.contents out.old) (W.contents out.new) (lines.old ++ line.now) lines.new) }
    {
        if line.len() <= lines.room() {
            lines.extend(line);
            return Ok(());
        }
        self.write_out(lines, out)?;
        lines.extend(line);
        Ok(())
    }
}
