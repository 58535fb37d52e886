// What a line of a script does to the switch on the desk, and what is written of it.
#![tactic(auto)]

ghost use Rattle.std.specs.Prelude.{◌≡◌, List, ℕ};
ghost use Rattle.state.specs.State.{password_of};
ghost use Rattle.page.specs.Page.{page_of, puts};
ghost use Rattle.stage.specs.Stage.{scene_of, Plays, PlaysOn};
ghost use Rattle.desk.specs.Playing.{begun, shown_of, awaited, played, ticks_of};

use line::Line;
use page::{Page, front};
use panel::BYTES;
use stage::{Desk, Event, Table, Turn, tell};
use state::{COUNTERS, NUMBERS};

// A line of the script by its number, or none where it does not read. The ticks that it asks of a switch are run one by one, by
// `stage::tick`.
#[tactic(auto, unfolding(crate::specs::Playing::played, page::specs::Page::puts))]
pub fn play(
    line: Option<Line>,
    number: u64,
    bytes: &[u8],
    desk: Desk,
    counters: &mut [u16; COUNTERS],
    numbers: &mut [u8; NUMBERS],
    paddles: &mut [u8; BYTES],
    all: &mut [u8; 256],
    buffer: &mut [u8],
    page: &mut [u8],
    at: usize,
) -> Turn
    ensures { Plays (played number line bytes.now (scene_of desk counters.old numbers.old paddles.old all.old buffer.old)) (page_of page.old at) result.desk counters.new numbers.new paddles.new all.new buffer.new (page_of page.new result.at) }
{
    let Some(line) = line else {
        let at = page::unread(page, at, number);
        return Turn { desk, at };
    };
    match line {
        Line::Pass => Turn { desk, at },
        Line::Image(n) => {
            let image = front(bytes, n);
            begin(image, desk, counters, numbers, paddles, all, page, at)
        }
        Line::Room(n) => {
            let desk = desk.with_room(n as usize);
            Turn { desk, at }
        }
        Line::Press(contact) => {
            let event = Event::Press(contact);
            tell(
                event, desk, counters, numbers, paddles, all, buffer, page, at,
            )
        }
        Line::Release(contact) => {
            let event = Event::Release(contact);
            tell(
                event, desk, counters, numbers, paddles, all, buffer, page, at,
            )
        }
        Line::Ticks(n) => {
            let at = wait(n, desk.there, page, at);
            Turn { desk, at }
        }
        Line::Packet(n) => {
            let event = Event::Packet(front(bytes, n));
            tell(
                event, desk, counters, numbers, paddles, all, buffer, page, at,
            )
        }
        Line::Restart => {
            let event = Event::Restart;
            tell(
                event, desk, counters, numbers, paddles, all, buffer, page, at,
            )
        }
        Line::Dump => {
            let at = show(desk.there, numbers, all, page, at);
            Turn { desk, at }
        }
    }
}

// The same on a table, whose desk, arrays and buffer are lent as one.
pub fn play_on<const N: usize, const P: usize>(
    line: Option<Line>,
    number: u64,
    bytes: &[u8],
    table: &mut Table<N>,
    page: &mut Page<P>,
)
    ensures { PlaysOn (played number line bytes.now table.old) page.old table.new page.new }
{
    let turn = play(
        line,
        number,
        bytes,
        table.desk,
        &mut table.counters,
        &mut table.numbers,
        &mut table.paddles,
        &mut table.all,
        &mut table.buffer,
        &mut page.bytes,
        page.at,
    );
    table.desk = turn.desk;
    page.at = turn.at;
}

// How many ticks a line asks of a switch, if there is one.
#[tactic(auto, unfolding(crate::specs::Playing::ticks_of))]
pub fn ticks(line: Option<Line>, there: bool) -> u32
    ensures { result ≡ ticks_of line there }
{
    match line {
        Some(Line::Ticks(n)) if there => n,
        _ => 0,
    }
}

// A start. Where it is refused there is no switch any more.
fn begin(
    image: &[u8],
    desk: Desk,
    counters: &mut [u16; COUNTERS],
    numbers: &mut [u8; NUMBERS],
    paddles: &mut [u8; BYTES],
    all: &mut [u8; 256],
    page: &mut [u8],
    at: usize,
) -> Turn
    ensures { (buffer : List ℕ) → Plays (begun image.now (scene_of desk counters.old numbers.old paddles.old all.old buffer)) (page_of page.old at) result.desk counters.new numbers.new paddles.new all.new buffer (page_of page.new result.at) }
{
    let answer = wakes::start(image, counters, numbers, paddles, all);
    let at = ledger::started(page, at, answer);
    let desk = Desk {
        there: answer.number == 0,
        room: desk.room,
    };
    Turn { desk, at }
}

// What is written of ticks before they are run: with no switch one line for all of them.
#[tactic(auto, unfolding(crate::specs::Playing::awaited, page::specs::Page::puts))]
fn wait(ticks: u32, there: bool, page: &mut [u8], at: usize) -> usize
    ensures { page_of page.new result ≡ puts (awaited ticks there) (page_of page.old at) }
{
    if there || ticks == 0 {
        return at;
    }
    page::none(page, at, b't')
}

// The registers, where there is a switch.
#[tactic(auto, unfolding(crate::specs::Playing::shown_of))]
fn show(there: bool, numbers: &[u8; NUMBERS], all: &[u8; 256], page: &mut [u8], at: usize) -> usize
    ensures { page_of page.new result ≡ puts (shown_of there all.now (password_of numbers.now)) (page_of page.old at) }
{
    if !there {
        return page::none(page, at, b'd');
    }
    let mut image = [0; 256];
    wakes::image(numbers, all, &mut image);
    page::dump(page, at, &image)
}
