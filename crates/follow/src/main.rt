// The program `follow` (PRG): packets on standard input, each after its length, and after a header a line for each on standard output. The
// run is the crate `desk_stream`'s; that it writes `follow` of the whole input is desk_report's theorem `run_is_follow`.
#![tactic(auto)]

ghost use Rattle.std.specs.Prelude.{◌≡◌, IfSome};
ghost use Rattle.std.specs.Io.KnownBytes.{Appends};
ghost use Rattle.desk_report.specs.Desk as spec;

use desk_report::desk::Desk;
use desk_report::line::header;
use desk_stream::End;
use desk_stream::sink::Sink;
use std::env::{Env, FillError};
use std::io::{self, Read, Write};

fn unwritten(rt: &impl Eprint) {
    let _ = eprintln!(rt; "follow: standard output takes no more");
}

// Says why a run has ended before its input did. What standard error does not take is dropped.
fn tell(rt: &impl Eprint, end: End) {
    match end {
        End::Read => {}
        End::Unread => {
            let _ = eprintln!(rt; "follow: standard input cannot be read");
        }
        End::Unwritten => unwritten(rt),
    }
}

// The header, and then a line for each packet; why it has ended. Of a reader and a writer whose bytes are known, an input that was read to
// its end has all its lines written.
fn follow<R: Read, W: Write>(reader: &mut R, out: &mut W) -> End
    ensures { result ≡ End.Read → IfSome (R.remaining reader.old) (λ s. Appends (W.contents out.old) (W.contents out.new) (spec.follow s)) }
{
    if out.write_all(header()).is_err() {
        return End::Unwritten;
    }
    desk_stream::run(Desk::new(true), Sink { needed: true }, reader, out).end
}

// Whether there is an argument after the program's own name. Each program has its own: a library's public function says what it gives,
// and no contract says what the arguments are.
fn has_arguments(rt: &impl Env) -> bool {
    !matches!(rt.arg(1, &mut []), Err(FillError::NotPresent))
}

fn main(rt: HostRuntime) {
    if has_arguments(&rt) {
        let _ = eprintln!(rt; "follow: takes no arguments; packets come on standard input");
        return;
    }
    let end = follow(&mut rt.reader(), &mut io::writer(&rt));
    tell(&rt, end);
}
