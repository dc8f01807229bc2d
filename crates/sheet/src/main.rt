// The program `sheet` (S1-10, S1-11): packets on standard input, as `follow` reads them; those that are refused are told on standard error,
// and at the end the page of what the follower then shows goes to standard output. The run is the crate `desk_stream`'s, the page
// desk_report's; that both are those of the whole input, however it is read, are its theorems `sheet_tells` and `sheet_shows_lem`.
#![tactic(auto)]

ghost use Rattle.std.specs.Prelude.{◌≡◌, List, ℕ, IfSome};
ghost use Rattle.desk_report.specs.Page.{page_bytes, page_for};
ghost use Rattle.desk_report.specs.Sheet.{sheet_page, sheet_run, sheet_shows};

use desk_report::desk::Desk;
use desk_report::page;
use desk_report::page::Page;
use desk_stream::sink::Sink;
use desk_stream::{End, Ended};
use std::env::{Env, FillError};
use std::io::{self, Read, Write};

// Reads to the end. Lines that standard error does not take are dropped, and end nothing.
fn read<R: Read, W: Write>(reader: &mut R, told: &mut W) -> Ended
    ensures runs { ((l : List (List ℕ)) × (result.desk ≡ (sheet_run l).desk)) × (result.end ≡ End.Unwritten → ⊥) }
    ensures shows { result.end ≡ End.Read → IfSome (R.remaining reader.old) (λ s. result.desk.follower ≡ sheet_shows s) }
{
    desk_stream::run(Desk::new(false), Sink { needed: false }, reader, told)
}

// The page of a desk's follower.
fn page_of(desk: Desk, out: &mut [u8; 246])
    ensures { out.new ≡ page_bytes (page_for desk.follower) }
{
    let Ok(_) = page::write(Page::of(desk.follower), out) else {
        unreachable!();
    };
}

// Reads to the end, and gives the page of the bytes that were read.
fn read_page<R: Read, W: Write>(reader: &mut R, told: &mut W, out: &mut [u8; 246]) -> End
    ensures page { (s : List ℕ) × (out.new ≡ sheet_page s) }
    // Of a reader whose bytes are known, the page of them all.
    ensures whole { result ≡ End.Read → IfSome (R.remaining reader.old) (λ s. out.new ≡ sheet_page s) }
{
    let ended = read(reader, told);
    page_of(ended.desk, out);
    ended.end
}

// Writes the page, or says that standard output does not take it.
fn write_page(rt: &(impl Print + Eprint), out: &[u8; 246]) {
    if io::writer(rt).write_all(out).is_err() {
        let _ = eprintln!(rt; "sheet: standard output takes no more");
    }
}

// Of an input that cannot be read to its end there is no page.
fn sheet(rt: &HostRuntime) {
    let mut out = [0u8; 246];
    if let End::Unread = read_page(&mut rt.reader(), &mut rt.stderr(), &mut out) {
        let _ = eprintln!(rt; "sheet: standard input cannot be read");
        return;
    }
    write_page(rt, &out);
}

// Whether there is an argument after the program's own name. Each program has its own: a library's public function says what it gives,
// and no contract says what the arguments are.
fn has_arguments(rt: &impl Env) -> bool {
    !matches!(rt.arg(1, &mut []), Err(FillError::NotPresent))
}

// What standard error does not take is dropped.
fn main(rt: HostRuntime) {
    if has_arguments(&rt) {
        let _ = eprintln!(rt; "sheet: takes no arguments; packets come on standard input");
        return;
    }
    sheet(&rt);
}
