// A run over what a reader gives: packets, each after its length, are taken, and lines go to a writer. What a packet does and what its line says is the
// crate `desk_report`'s; here bytes are read and lines written. Each function leaves what a turn of its Reads leaves; that such turns, over
// any reads, write what is written for the whole input and end at its desk is its theorem `whole`. Reader, writer and sink
// are handed on each as it is: two are lent and one is a value, and a struct of them would be made at each call.
#![tactic(auto)]

pub mod input;
pub mod sink;
mod take;
#[cfg(test)]
mod tests;

ghost use Rattle.std.specs.Prelude.{◌≡◌, [], IfSome};
ghost use Rattle.desk_report.specs.Desk.{output_of, desk_of};
ghost use Rattle.desk_stream.specs.Ran.{Seen, ended_by, Ends};
ghost use Rattle.desk_stream.specs.Known.{Wrote, EndsOver, RunsOver};

use crate::input::Stream;
use crate::sink::Sink;
use desk_report::buffer::Bytes;
use desk_report::desk::Desk;
use std::io::{Read, Write};

// Why a run has ended.
#[derive(Clone, Copy)]
pub enum End {
    // The input has ended, or a refused length stopped it.
    Read,
    // The input could not be read on.
    Unread,
    // Lines that are needed could not be written.
    Unwritten,
}

#[derive(Clone, Copy)]
pub struct Ended {
    pub desk: Desk,
    pub end: End,
}

// A proved loop has to end: it reads as often as no run does.
fn turns<R: Read, W: Write>(stream: &mut Stream, sink: Sink, reader: &mut R, out: &mut W) -> End
    requires { stream.old.input ≡ [] }
    ensures value { ((w : Seen) × (record { desk = stream.new.desk; end = result } ≡ ended_by stream.old.desk w)) × Ends sink result }
    ensures over { EndsOver stream.old.desk sink (R.remaining reader.old) (R.remaining reader.new) (W.contents out.old) (W.contents out.new) stream.new.desk result }
{
    for _ in 0..u64::MAX {
        if let Err(end) = stream.read_on(sink, reader, out) {
            return end;
        }
    }
    End::Unread
}

// Reads to the end, from this desk on. Where lines could not be written, the desk is the one before the read that gave them.
pub fn run<R: Read, W: Write>(desk: Desk, sink: Sink, reader: &mut R, out: &mut W) -> Ended
    ensures value { (w : Seen) × (result ≡ ended_by desk w) }
    ensures ends { Ends sink result.end }
    ensures over { RunsOver desk sink (R.remaining reader.old) (R.remaining reader.new) (W.contents out.old) (W.contents out.new) result }
    // Of a reader whose bytes are known: the desk at their end, and what is written for them all, however they were read.
    ensures whole { result.end ≡ End.Read → IfSome (R.remaining reader.old) (λ s. (result.desk ≡ desk_of desk s) × Wrote sink (W.contents out.old) (W.contents out.new) (output_of desk s)) }
{
    let mut stream = Stream {
        desk,
        lines: Bytes::new(),
        input: Bytes::new(),
    };
    let end = turns(&mut stream, sink, reader, out);
    Ended {
        desk: stream.desk,
        end,
    }
}
