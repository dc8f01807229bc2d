// A run between two reads: the desk, the lines that are not written out yet, and the bytes that are read and not taken yet. Where lines go
// is handed on in two, as sink.rt says.
ghost use Rattle.std.specs.Prelude.{◌≡◌, ◌-◌, ◌≤◌, ◌<◌, ◌++◌, ℕ, List, Option, min, length, OnOk};
ghost use Rattle.std.specs.Option.{option_map};
ghost use Rattle.desk_report.specs.Buffer.{given, Reads};
ghost use Rattle.desk_report.specs.Desk.{end_bytes};
ghost use Rattle.desk_stream.specs.Ran.{Goes};
ghost use Rattle.desk_stream.specs.Took.{Took, Read};
ghost use Rattle.desk_stream.specs.Known.{Wrote, Tells, Passes};

use crate::End;
use crate::sink::Sink;
use crate::take::take_all;
use desk_report::buffer::Bytes;
use desk_report::desk::Desk;
use std::io::{Read, Write};

#[derive(Drop)]
pub(crate) struct Stream {
    pub(crate) desk: Desk,
    pub(crate) lines: Bytes<4096>,
    pub(crate) input: Bytes<4096>,
}

// How many bytes a read is to bring: what has room, at most 4,096. N is known when this is compiled, so that the programs, whose memory has
// 4,096 bytes, ask nothing here.
fn at_once<const N: usize>(input: &Bytes<N>) -> usize
    ensures value { result ≡ min (N - length input.now) 4096 }
    ensures fits { length input.now ≤ N }
{
    let room = input.room();
    if N <= 4096 { room } else { room.min(4096) }
}

// Reads once, after the bytes that are there, and says how many bytes came; none where the reader failed. They come by a memory of its own, at
// most 4,096 at once: that of `Bytes` is lent to no reader, so that this library alone calls the system. Public for whoever reads into a `Bytes`
// elsewhere.
pub fn fill<const N: usize, R: Read>(input: &mut Bytes<N>, reader: &mut R) -> Option<usize>
    ensures { (c : Option (List ℕ)) × (result ≡ option_map length c) × (input.new ≡ input.old ++ given c) × Reads N input.old (R.remaining reader.old) (R.remaining reader.new) c }
{
    let mut chunk = [0; 4096];
    let room = at_once(input);
    let Ok(n) = reader.read(&mut chunk[..room]) else {
        return None;
    };
    input.extend(&chunk[..n]);
    Some(n)
}

impl Stream {
    // Takes what the input holds, writes the lines, and keeps the bytes of a packet that is not whole yet. After a failed write the desk is as it was.
    fn take_front<W: Write>(&mut self, sink: Sink, out: &mut W) -> Result<(), End>
        ensures took { Took self.old.desk sink self.old.input self.new.desk self.new.input result }
        ensures tells { Tells self.old.desk sink self.old.input (W.contents out.old) (W.contents out.new) result }
    {
        let mut desk = self.desk;
        let used = take_all(sink, &mut desk, &mut self.lines, out, self.input.as_slice())?;
        sink.write_out(&mut self.lines, out)?;
        self.desk = desk;
        self.input.forget(used.ok_or(End::Read)?);
        Ok(())
    }

    // The input has ended: what is left of it is a packet cut short.
    fn finish<W: Write>(&self, sink: Sink, out: &mut W) -> Result<(), End>
        ensures goes { Goes sink result }
        ensures wrote { OnOk result (Wrote sink (W.contents out.old) (W.contents out.new) (end_bytes self.now.desk self.now.input)) }
    {
        let line = self.desk.end(self.input.as_slice());
        sink.write(out, line.as_slice())
    }

    // Reads once, and takes what is there; why the run ends, where it does.
    pub(crate) fn read_on<R: Read, W: Write>(
        &mut self,
        sink: Sink,
        reader: &mut R,
        out: &mut W,
    ) -> Result<(), End>
        requires { length self.old.input < 4096 }
        ensures took { Read self.old.desk sink self.old.input self.new.desk self.new.input result }
        ensures passes { Passes self.old.desk sink self.old.input (R.remaining reader.old) (R.remaining reader.new) (W.contents out.old) (W.contents out.new) self.new.desk self.new.input result }
    {
        match fill(&mut self.input, reader) {
            None => Err(End::Unread),
            Some(0) => {
                self.finish(sink, out)?;
                Err(End::Read)
            }
            Some(_) => self.take_front(sink, out),
        }
    }
}
