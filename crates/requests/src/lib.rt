// Request lines, read byte by byte. A line may come in pieces: what was read of it so far is a `Reading`.
#![tactic(auto)]

ghost use Rattle.std.specs.Prelude.{◌≡◌, drop};
ghost use Rattle.requests.specs.Lines.{digit_in, zeros_after, value_after, number_after, letter_of, letter_read, digit_read, space_after, whole_of, digits_read, read, end_of};
ghost use Rattle.requests.specs.Pieces.{scanned};

const NEWLINE: u8 = 10;

const SPACE: u8 = 32;

// What a line begins with: z, g, p.
#[derive(Clone, Copy)]
pub enum Kind {
    Zone,
    Get,
    Put,
}

// A number, and the zeros written before its first other digit. Past 64 bits a number counts as the largest.
#[derive(Clone, Copy)]
pub struct Number {
    pub zeros: u64,
    pub value: u64,
}

// The numbers of the line before the one that is read.
#[derive(Clone, Copy)]
pub enum Had {
    Nothing,
    One(Number),
    Two { first: Number, second: Number },
}

#[derive(Clone, Copy)]
pub enum Reading {
    // Nothing of a line.
    Start,
    // Its letter.
    Letter(Kind),
    // Up to a space.
    Space {
        kind: Kind,
        had: Had,
    },
    // Up to a digit.
    Digits {
        kind: Kind,
        had: Had,
        number: Number,
    },
}

#[derive(Clone, Copy)]
pub enum Line {
    Zone { huge: Number, cpus: Number },
    Get { cpu: u64, order: u64 },
    Put { cpu: u64, frame: u64, order: u64 },
}

// A line of another form.
#[derive(Clone, Copy, PartialEq, Eq)]
pub struct Malformed;

// A byte read: the line goes on, or is whole.
#[derive(Clone, Copy)]
pub enum Read {
    GoesOn(Reading),
    Whole(Line),
}

// A piece read: a whole line with the position after its newline, or the piece's end, with what was read of a line.
#[derive(Clone, Copy)]
pub enum Scanned {
    Whole { line: Line, next: usize },
    Piece(Reading),
}

// ---- numbers

fn digit_of(byte: u8) -> Option<u8>
    ensures { result ≡ digit_in byte }
{
    match byte {
        b'0'..=b'9' => Some(byte - b'0'),
        _ => None,
    }
}

fn zeros_after(number: Number, digit: u8) -> u64
    ensures { result ≡ zeros_after number digit }
{
    if number.value != 0 || digit != 0 {
        return number.zeros;
    }
    number.zeros.saturating_add(1)
}

fn value_after(number: Number, digit: u8) -> u64
    ensures { result ≡ value_after number digit }
{
    number
        .value
        .saturating_mul(10)
        .saturating_add(u64::from(digit))
}

fn number_after(number: Number, digit: u8) -> Number
    ensures { result ≡ number_after number digit }
{
    Number {
        zeros: zeros_after(number, digit),
        value: value_after(number, digit),
    }
}

// ---- a byte more

fn letter_of(byte: u8) -> Result<Read, Malformed>
    ensures { result ≡ letter_of byte }
{
    match byte {
        b'z' => Ok(Read::GoesOn(Reading::Letter(Kind::Zone))),
        b'g' => Ok(Read::GoesOn(Reading::Letter(Kind::Get))),
        b'p' => Ok(Read::GoesOn(Reading::Letter(Kind::Put))),
        _ => Err(Malformed),
    }
}

// A space after a letter: a number has to follow.
fn letter_read(kind: Kind, byte: u8) -> Result<Read, Malformed>
    ensures { result ≡ letter_read kind byte }
{
    if byte != SPACE {
        return Err(Malformed);
    }
    Ok(Read::GoesOn(Reading::Space {
        kind,
        had: Had::Nothing,
    }))
}

// A digit, the first or a later one.
fn digit_read(kind: Kind, had: Had, number: Number, byte: u8) -> Result<Read, Malformed>
    ensures { result ≡ digit_read kind had number (digit_in byte) }
{
    let digit = digit_of(byte).ok_or(Malformed)?;
    Ok(Read::GoesOn(Reading::Digits {
        kind,
        had,
        number: number_after(number, digit),
    }))
}

// A space after a number: another number has to follow.
fn space_after(kind: Kind, had: Had, number: Number) -> Result<Read, Malformed>
    ensures { result ≡ space_after kind had number }
{
    match (kind, had) {
        (_, Had::Nothing) => Ok(Read::GoesOn(Reading::Space {
            kind,
            had: Had::One(number),
        })),
        (Kind::Put, Had::One(first)) => Ok(Read::GoesOn(Reading::Space {
            kind,
            had: Had::Two {
                first,
                second: number,
            },
        })),
        _ => Err(Malformed),
    }
}

// A newline after a number.
fn whole_of(kind: Kind, had: Had, number: Number) -> Result<Read, Malformed>
    ensures { result ≡ whole_of kind had number }
{
    match (kind, had) {
        (Kind::Zone, Had::One(first)) => Ok(Read::Whole(Line::Zone {
            huge: first,
            cpus: number,
        })),
        (Kind::Get, Had::One(first)) => Ok(Read::Whole(Line::Get {
            cpu: first.value,
            order: number.value,
        })),
        (Kind::Put, Had::Two { first, second }) => Ok(Read::Whole(Line::Put {
            cpu: first.value,
            frame: second.value,
            order: number.value,
        })),
        _ => Err(Malformed),
    }
}

// A digit, or the end of a number.
fn digits_read(kind: Kind, had: Had, number: Number, byte: u8) -> Result<Read, Malformed>
    ensures { result ≡ digits_read kind had number byte }
{
    match byte {
        SPACE => space_after(kind, had, number),
        NEWLINE => whole_of(kind, had, number),
        _ => digit_read(kind, had, number, byte),
    }
}

fn byte_read(reading: Reading, byte: u8) -> Result<Read, Malformed>
    ensures { result ≡ read reading byte }
{
    match reading {
        Reading::Start => letter_of(byte),
        Reading::Letter(kind) => letter_read(kind, byte),
        Reading::Space { kind, had } => digit_read(kind, had, Number { zeros: 0, value: 0 }, byte),
        Reading::Digits { kind, had, number } => digits_read(kind, had, number, byte),
    }
}

// ---- a piece, and the input's end

// Reads a piece from a position on, up to the first newline. A position past the end reads nothing.
pub fn scan(text: &[u8], from: usize, reading: Reading) -> Result<Scanned, Malformed>
    ensures { result ≡ scanned (drop from text.now) from reading }
{
    let mut so_far = reading;
    for at in from..text.len() {
        match byte_read(so_far, text[at])? {
            Read::GoesOn(next) => so_far = next,
            Read::Whole(line) => return Ok(Scanned::Whole { line, next: at + 1 }),
        }
    }
    Ok(Scanned::Piece(so_far))
}

// The input's end: between two lines nothing is left. A last line without a newline is a line.
pub fn end(reading: Reading) -> Result<Option<Line>, Malformed>
    ensures { result ≡ end_of reading }
{
    if let Reading::Start = reading {
        return Ok(None);
    }
    match byte_read(reading, NEWLINE)? {
        Read::GoesOn(_) => Err(Malformed),
        Read::Whole(line) => Ok(Some(line)),
    }
}
