// The page of a follower (S1): six lines of 40 columns and a newline, a name and a figure each, written by bytes as text.rt says.
ghost use Rattle.std.specs.Prelude.{◌≡◌, List, [], ◌∷◌, ◌++◌, ℕ, ◌+◌, ◌≤◌, length, Option};
ghost use Rattle.std.proofs.lemmas.List.Edits.{sets};
ghost use Rattle.power_policy_interface.specs.Limits.{page_length};
ghost use Rattle.power_policy_interface.specs.Refusal.{numbered};
ghost use Rattle.wire.specs.Bytes.{ports_bytes};
ghost use Rattle.wire_writer.specs.Stored.{stored_from, written_from};
ghost use Rattle.abstract_page.specs.Text.{newline, word, right};
ghost use Rattle.abstract_page.specs.Page.{commas, text, ports};
ghost use Rattle.desk_report.specs.Page.{figure_of, page_bytes, lost_page, showing_page, page_for, end_of};

use crate::text;
use crate::text::Columns;
use desk_follower::{Follower, Shown};
use interface_display::State;
use interface_display::packet::Picture;
use interface_display::providers::Providers;
use power_policy_interface::limits::{MAX_PORTS, PAGE};
use power_policy_interface::refusal::Refusal;

// What a page says. Only what is not there is absent: 0 is a figure.
#[derive(Clone, Copy)]
pub struct Page {
    // The number of the event shown.
    pub number: Option<u32>,
    pub state: State,
    // The consumer's port, mV and mA.
    pub port: Option<u32>,
    pub mv: Option<u32>,
    pub ma: Option<u32>,
    pub tracked: Providers,
}

impl Page {
    // Of a lost follower: all but the state are absent.
    pub fn lost() -> Page
        ensures { result ≡ lost_page }
    {
        Page {
            number: None,
            state: State::Lost,
            port: None,
            mv: None,
            ma: None,
            tracked: Providers::new(),
        }
    }

    // Of a follower that shows this, level or waiting.
    pub fn showing(state: State, p: Picture) -> Page
        ensures { result ≡ showing_page state p }
    {
        let consumer = p.display.consumer;
        let capability = consumer.map(|c| c.consumer_power_capability.capability);
        Page {
            number: Some(p.number),
            state,
            port: consumer.map(|c| c.psu as u32),
            mv: capability.map(|c| c.voltage_mv as u32),
            ma: capability.map(|c| c.current_ma as u32),
            tracked: p.display.providers,
        }
    }

    // Of a follower.
    pub fn of(f: Follower) -> Page
        ensures { result ≡ page_for f }
    {
        match f.shown {
            Shown::Lost(_) => Page::lost(),
            Shown::Picture(p) => Page::showing(f.state(), p),
        }
    }
}

// A number, or a hyphen for what is not there.
fn number_columns(n: Option<u32>) -> Columns
    ensures { result ≡ text (figure_of n) }
{
    let Some(v) = n else {
        return Columns::of(b"-");
    };
    let mut columns = Columns::new();
    columns.push_decimal(v as u64);
    columns
}

// The word of a state.
fn state_columns(state: State) -> Columns
    ensures { result ≡ word state }
{
    Columns::of(text::word(state))
}

// A port before those that stand there, with a comma between.
fn push_port(columns: &mut Columns, port: u8)
    ensures { (l : List ℕ) → columns.old ≡ end_of (commas l) → columns.new ≡ end_of (commas (port ∷ l)) }
{
    if columns.is_empty() {
        columns.push_decimal(port as u64);
        return;
    }
    columns.push(b',');
    columns.push_decimal(port as u64);
}

// The tracked ports, rising; the last is stored first.
fn ports_columns(tracked: Providers) -> Columns
    ensures { result ≡ end_of (text (ports (ports_bytes tracked.mask))) }
{
    let mut columns = Columns::new();
    // By the ports' numbers, downwards, and upwards in wire_writer: an iterator of the set would have such a loop for each direction.
    for port in (0..MAX_PORTS).rev() {
        if tracked.contains(port) {
            push_port(&mut columns, port);
        }
    }
    if columns.is_empty() {
        return Columns::of(b"-");
    }
    columns
}

// Writes a page at the front of a buffer; the bytes past it stay.
pub fn write(page: Page, buffer: &mut [u8]) -> Result<usize, Refusal>
    ensures value { numbered result ≡ written_from page_length 34 (page_bytes page) buffer.old }
    ensures written { buffer.new ≡ stored_from page_length (page_bytes page) buffer.old }
{
    if buffer.len() < PAGE {
        return Err(Refusal::Page);
    }
    number_columns(page.number).line(b"number              ", buffer, 0);
    state_columns(page.state).line(b"state               ", buffer, 41);
    number_columns(page.port).line(b"port                ", buffer, 82);
    number_columns(page.mv).line(b"millivolts          ", buffer, 123);
    number_columns(page.ma).line(b"milliamps           ", buffer, 164);
    ports_columns(page.tracked).line(b"tracked ports       ", buffer, 205);
    Ok(PAGE)
}
