// Requests from standard input, each run to its end: answer number, frame and steps, a line each. The first line names n and the CPUs, and is repeated.
// A line of any other form ends the run.
#![tactic(auto)]

ghost use Rattle.std.specs.Prelude.{◌≡◌, ◌≤◌};
ghost use Rattle.rules.specs.Create.{create_zone, create_step};
ghost use Rattle.rules.specs.Step.{step, follow, after};
ghost use Rattle.calls.specs.Results.{zone, ran_to};
ghost use Rattle.frames.specs.Requests.{fuel, begun_by, replied};

use calls::Ended;
use requests::{Line, Number, Reading, Scanned};
use rules::{Answer, Frame};
use std::io::{Error, Print, Read, Stdin, Stdout};

const MOST_HUGE: u64 = 256;

const MOST_CPUS: u64 = 8;

const CHILD_WORDS: usize = 8;

const TREE_CHILDREN: usize = 32;

// More steps than any operation takes on 256 huge frames and 8 CPUs.
const FUEL: u64 = 1000000;

// ---- output: a buffer of 65,536 bytes, written when it is full and at the end

// Where they go, and how many bytes wait. After a write that failed nothing more is written.
#[derive(Drop)]
struct Out {
    stdout: Stdout,
    buffer: [u8; 65536],
    waiting: u16,
}

impl Out {
    fn put_byte(&mut self, byte: u8) -> Result<(), Error> {
        let at = self.waiting;
        self.buffer[at as usize] = byte;
        if at == u16::MAX {
            self.waiting = 0;
            return self.stdout.write_all(&self.buffer);
        }
        self.waiting = at + 1;
        Ok(())
    }

    fn put_digits(&mut self, text: &[u8]) -> Result<(), Error> {
        for digit in text {
            self.put_byte(*digit)?;
        }
        Ok(())
    }

    fn put_number(&mut self, n: u64) -> Result<(), Error> {
        let mut text = [0u8; 20];
        let digits = io::decimal(n, &mut text);
        self.put_digits(&text[..digits])
    }

    fn put_zeros(&mut self, count: u64) -> Result<(), Error> {
        for _ in 0..count {
            self.put_byte(b'0')?;
        }
        Ok(())
    }

    // A number as it was written, after a space.
    fn put_written(&mut self, number: Number) -> Result<(), Error> {
        self.put_byte(b' ')?;
        self.put_zeros(number.zeros)?;
        self.put_number(number.value)
    }

    // The first line again.
    fn put_zone(&mut self, huge: Number, cpus: Number) -> Result<(), Error> {
        self.put_byte(b'z')?;
        self.put_written(huge)?;
        self.put_written(cpus)?;
        self.put_byte(b'\n')
    }

    // What an operation ended with: answer number, frame, steps.
    fn put_ended(&mut self, ended: Ended) -> Result<(), Error> {
        self.put_number(records::number_of(ended.answer))?;
        self.put_byte(b' ')?;
        self.put_number(records::frame_of(ended.answer))?;
        self.put_byte(b' ')?;
        self.put_number(ended.steps)?;
        self.put_byte(b'\n')
    }

    fn finish(&mut self) -> Result<(), Error> {
        self.stdout.write_all(&self.buffer[..self.waiting as usize])
    }
}

// ---- input, in pieces of 65,536 bytes

// Where they come from, how many the last read answered, and where the next line begins.
#[derive(Drop)]
struct Lines {
    stdin: Stdin,
    buffer: [u8; 65536],
    got: usize,
    next: usize,
}

impl Lines {
    // The next line; none, where the input ends or has a line of another form. The turns are counted, to a number that no input reaches: a loop has to
    // end, and nothing says that the input does.
    fn next_line(&mut self) -> Option<Line> {
        let mut reading = Reading::Start;
        for _ in 0..u64::MAX {
            let n = self.buffer.len().min(self.got);
            match requests::scan(&self.buffer[..n], self.next, reading).ok()? {
                Scanned::Whole { line, next } => {
                    self.next = next;
                    return Some(line);
                }
                Scanned::Piece(so_far) => reading = so_far,
            }
            self.got = self.stdin.read(&mut self.buffer).unwrap_or(0);
            self.next = 0;
            if self.got == 0 {
                return requests::end(reading).ok()?;
            }
        }
        None
    }
}

// ---- requests, each run to its end

// A request, begun; none, where the line is none.
fn begin(
    header: &[u64],
    words: &[u64],
    children: &[u16],
    trees: &[u16],
    cpus: &[u64],
    line: Line,
) -> Option<Answer>
    ensures { result ≡ begun_by (zone header.now words.now children.now trees.now cpus.now) line }
{
    match line {
        Line::Zone { .. } => None,
        Line::Get { cpu, order } => Some(begins::begin_get(
            header, words, children, trees, cpus, cpu, order,
        )),
        Line::Put { cpu, frame, order } => Some(begins::begin_put(
            header,
            words,
            children,
            trees,
            cpus,
            cpu,
            Frame(frame),
            order,
        )),
    }
}

// The steps after a beginning's answer.
fn run(
    header: &[u64],
    words: &mut [u64],
    children: &mut [u16],
    trees: &mut [u16],
    cpus: &mut [u64],
    answer: Answer,
) -> Ended
    ensures { ran_to result (zone header.now words.new children.new trees.new cpus.new) ≡ follow step fuel 0 answer (zone header.now words.old children.old trees.old cpus.old) }
{
    match calls::next_of(answer) {
        Some(rec) => runs::run(header, words, children, trees, cpus, rec, FUEL),
        None => Ended { answer, steps: 0 },
    }
}

// A request, run to its end; none, where the line is none.
fn reply(
    header: &[u64],
    words: &mut [u64],
    children: &mut [u16],
    trees: &mut [u16],
    cpus: &mut [u64],
    line: Line,
) -> Option<Ended>
    ensures { zone header.now words.new children.new trees.new cpus.new ≡ replied (zone header.now words.old children.old trees.old cpus.old) line }
{
    let answer = begin(header, words, children, trees, cpus, line)?;
    Some(run(header, words, children, trees, cpus, answer))
}

// Requests up to the end, or to a line that is none, each with its answer printed; the turns are counted as above.
fn serve(
    header: &[u64],
    words: &mut [u64],
    children: &mut [u16],
    trees: &mut [u16],
    cpus: &mut [u64],
    lines: &mut Lines,
    out: &mut Out,
) -> Result<(), Error> {
    for _ in 0..u64::MAX {
        let Some(line) = lines.next_line() else {
            break;
        };
        let Some(ended) = reply(header, words, children, trees, cpus, line) else {
            break;
        };
        out.put_ended(ended)?;
    }
    Ok(())
}

// ---- a zone, created

fn create(
    header: &mut [u64],
    words: &mut [u64],
    children: &mut [u16],
    trees: &mut [u16],
    cpus: &mut [u64],
    huge: u64,
) -> Ended
    ensures { ran_to result (zone header.new words.new children.new trees.new cpus.new) ≡ follow (create_step huge) fuel 0 (create_zone huge (zone header.old words.old children.old trees.old cpus.old)).answer (after (zone header.old words.old children.old trees.old cpus.old) (create_zone huge (zone header.old words.old children.old trees.old cpus.old))) }
{
    let answer = creating::create(header, words, children, trees, cpus, huge);
    match calls::next_of(answer) {
        Some(rec) => creating::run(header, words, children, trees, cpus, huge, rec, FUEL),
        None => Ended { answer, steps: 0 },
    }
}

fn session(
    header: &mut [u64],
    words: &mut [u64],
    children: &mut [u16],
    trees: &mut [u16],
    cpus: &mut [u64],
    huge: u64,
    lines: &mut Lines,
    out: &mut Out,
) -> Result<(), Error> {
    create(header, words, children, trees, cpus, huge);
    serve(header, words, children, trees, cpus, lines, out)?;
    out.finish()
}

// A zone of the size that the first line names, with tables of its lengths.
fn zone_of(lines: &mut Lines, out: &mut Out, huge: Number, cpus: Number) -> Result<(), Error>
    requires { (huge.value ≤ 256) × (cpus.value ≤ 8) }
{
    out.put_zone(huge, cpus)?;
    let children = huge.value as usize;
    let words = CHILD_WORDS * children;
    let trees = children.div_ceil(TREE_CHILDREN);
    let entries = cpus.value as usize;
    let mut header_table = [0u64; 1];
    let mut words_table = [0u64; 2048];
    let mut children_table = [0u16; 256];
    let mut trees_table = [0u16; 8];
    let mut cpus_table = [0u64; 8];
    session(
        &mut header_table,
        &mut words_table[..words],
        &mut children_table[..children],
        &mut trees_table[..trees],
        &mut cpus_table[..entries],
        huge.value,
        lines,
        out,
    )
}

fn main(rt: HostRuntime) {
    let mut lines = Lines {
        stdin: rt.stdin(),
        buffer: io::large_buffer(),
        got: 0,
        next: 0,
    };
    let Some(Line::Zone { huge, cpus }) = lines.next_line() else {
        return;
    };
    if !(1..=MOST_HUGE).contains(&huge.value) || !(1..=MOST_CPUS).contains(&cpus.value) {
        return;
    }
    let mut out = Out {
        stdout: rt.stdout(),
        buffer: io::large_buffer(),
        waiting: 0,
    };
    let _ = zone_of(&mut lines, &mut out, huge, cpus);
}
