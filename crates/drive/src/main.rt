// Plays a script on a switch: the file that the first argument names, or standard input, line by line to standard output.
#![tactic(auto)]

use line::read;
use model::{PADDLES, PLACE};
use page::{Page, front};
use stage::Table;
use std::env::{Env, FillError};
use std::fs;
use std::io::{Cursor, Error, ErrorKind, Read, Write};
use std::process::ExitCode;
use std::rt::Files;

// The longest path that is taken.
const PATH: usize = 4096;

// What is kept of a line: one byte more than the longest that reads.
const LINE: usize = 2049;

// The bytes that a line's hex may stand for: a line has room for no more.
const HEX: usize = 1024;

// The largest buffer.
const BUFFER: usize = 4096;

// A block of the script, and a page of what is written.
const BLOCK: usize = 65536;

// A page that reaches past this place is written out: less than 2,048 bytes of room are left.
const FULL: usize = 63488;

// The most that a row takes: of each packet its length and a comma, and two digits for every byte.
const ROW: usize = 38 + PADDLES * (5 + 2 * PLACE);

// The room for what the system says of an error.
const WHY: usize = 320;

// The status where nobody reads the answers on, as a shell has it of a program that the signal SIGPIPE ends. Here that signal is
// ignored from the start, and the write fails.
const UNHEARD: u8 = 141;

// A script under way: the table, the page that goes out next, and the line that is being collected.
#[derive(Drop)]
struct Script {
    table: Table<BUFFER>,
    page: Page<BLOCK>,
    // Why no more goes out, where that is so.
    lost: Option<ErrorKind>,
    line: Page<LINE>,
    // The lines so far, and those of them that did not read.
    lines: u64,
    unread: u64,
}

// Ticks whose rows are equal.
#[derive(Drop)]
struct Run {
    row: Page<ROW>,
    ticks: u64,
}

fn main(rt: HostRuntime) -> ExitCode {
    let mut path = [0u8; PATH];
    match rt.arg(1, &mut path) {
        Ok(length) => from_file(&rt, &path[..length]),
        Err(FillError::NotPresent) => play(&rt, &mut rt.stdin(), "standard input"),
        Err(FillError::TooLong) => {
            say(&rt, "path", "File name too long");
            ExitCode::SUCCESS
        }
    }
}

// The script is in a file. Its path is UTF-8: std opens no other.
fn from_file(rt: &(impl Files + Print + Eprint), path: &[u8]) -> ExitCode {
    let Ok(name) = str::from_utf8(path) else {
        say(rt, "path", "not UTF-8");
        return ExitCode::SUCCESS;
    };
    match fs::open(rt, name) {
        Ok(mut file) => play(rt, &mut file, name),
        Err(why) => {
            fail(rt, name, why);
            ExitCode::SUCCESS
        }
    }
}

// The whole script, or as much of it as could be read and answered. There are more turns than any script uses up.
fn play(rt: &(impl Print + Eprint), from: &mut impl Read, name: &str) -> ExitCode {
    let mut input = [0; BLOCK];
    let mut script = Script::new();
    for _ in 0..u64::MAX {
        let Some(text) = block(rt, from, name, &mut input) else {
            break;
        };
        script.part(rt, text);
        if script.lost.is_some() {
            break;
        }
    }
    script.end(rt)
}

// The next block of the script: none at its end, or where it cannot be read.
fn block<'a>(
    rt: &impl Eprint,
    from: &mut impl Read,
    name: &str,
    input: &'a mut [u8; BLOCK],
) -> Option<&'a [u8]> {
    match from.read(input) {
        Ok(0) => None,
        Ok(count) => Some(&input[..count]),
        Err(why) => {
            fail(rt, name, why);
            None
        }
    }
}

impl Script {
    fn new() -> Self {
        Script {
            table: Table::empty(),
            page: Page::new(),
            lost: None,
            line: Page::new(),
            lines: 0,
            unread: 0,
        }
    }

    // A part of the script, byte by byte. Of a line that is too long only as much is kept as shows that it is. After a block that is
    // not full the writer of the script may be waiting, as at a terminal: what is answered so far goes out.
    fn part(&mut self, rt: &(impl Print + Eprint), text: &[u8]) {
        for byte in text {
            match *byte {
                b'\n' => self.perform(rt),
                byte => self.line.put(byte),
            }
        }
        if text.len() < BLOCK {
            self.print(rt);
        }
    }

    // A whole line.
    fn perform(&mut self, rt: &(impl Print + Eprint)) {
        let mut bytes = [0; HEX];
        let said = read(self.line.written(), &mut bytes);
        self.line.rewind();
        self.lines = self.lines.saturating_add(1);
        if said.is_none() {
            self.unread = self.unread.saturating_add(1);
        }
        desk::play_on(said, self.lines, &bytes, &mut self.table, &mut self.page);
        self.ticks(rt, desk::ticks(said, self.table.desk.there));
        self.print_full(rt);
    }

    // So many ticks, and the lines of their runs.
    fn ticks(&mut self, rt: &(impl Print + Eprint), count: u32) {
        let mut run = Run {
            row: Page::new(),
            ticks: 0,
        };
        let mut row = Page::new();
        for _ in 0..count {
            self.table.tick_at_front(&mut row);
            self.join(rt, &mut run, &row);
            if self.lost.is_some() {
                break;
            }
        }
        self.close(&run);
    }

    // A tick joins the run where its row is the same. Else the run is written, and the tick begins another.
    fn join(&mut self, rt: &(impl Print + Eprint), run: &mut Run, row: &Page<ROW>) {
        if row.written() == run.row.written() {
            run.ticks = run.ticks.saturating_add(1);
            return;
        }
        self.close(run);
        self.print_full(rt);
        run.row = *row;
        run.ticks = 1;
    }

    // The line of a run, if it has a tick.
    fn close(&mut self, run: &Run) {
        if run.ticks != 0 {
            self.page.run(run.ticks, run.row.written());
        }
    }

    // Writes a page out that is nearly full.
    fn print_full(&mut self, rt: &(impl Print + Eprint)) {
        if FULL < self.page.written().len() {
            self.print(rt);
        }
    }

    // Writes the page out, and says so where it is not taken. Where nobody reads on, nothing is said. Once a page was not taken, no
    // more is written.
    fn print(&mut self, rt: &(impl Print + Eprint)) {
        if self.lost.is_none()
            && let Err(why) = rt.write_all(self.page.written())
        {
            self.lost = Some(why.kind());
            if why.kind() != ErrorKind::BrokenPipe {
                fail(rt, "standard output", why);
            }
        }
        self.page.rewind();
    }

    // The end of a script: what is left of it, and its status, which is 0 but where nobody reads the answers on.
    fn end(&mut self, rt: &(impl Print + Eprint)) -> ExitCode {
        if !self.line.written().is_empty() {
            self.perform(rt);
        }
        self.print(rt);
        if self.lost == Some(ErrorKind::BrokenPipe) {
            return ExitCode::from(UNHEARD);
        }
        report(rt, self.unread);
        ExitCode::SUCCESS
    }
}

// Says on standard error how many lines did not read, where there are any. `./drive` knows its status by these words.
fn report(rt: &impl Eprint, unread: u64) {
    if 0 < unread {
        let _ = eprintln!(rt; "lines that do not read: {unread}");
    }
}

// Says on standard error what failed and why, in the system's words. The error's number, which std puts behind them, is left out.
fn fail(rt: &impl Eprint, what: &str, why: Error) {
    let mut text = Cursor::new([0u8; WHY]);
    let _ = write!(text, "{why}");
    let length = text.position() as usize;
    let bytes = text.into_inner();
    let words = str::from_utf8(front(&bytes, length)).unwrap_or("");
    match words.split_once(" (os error ") {
        Some((cause, _)) => say(rt, what, cause),
        None => say(rt, what, words),
    }
}

// A line on standard error.
fn say(rt: &impl Eprint, what: &str, why: &str) {
    let _ = eprintln!(rt; "{what}: {why}");
}
