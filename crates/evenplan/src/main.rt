// Program `evenplan`: reads a specification file from standard input and prints its even plan, or the number of the refusal
// (document 01, "Samples"). Reading a specification, the plan and its reports are the libraries' work; here are the lines of text, and
// what is read and written.
#![tactic(auto)]

ghost use Rattle.std.specs.Prelude.{ℕ, ◌≤◌, ◌≡◌, ◌++◌, List, length, take, Some, Ok, IfOk, IfSome, OnOk};
ghost use Rattle.std.specs.Io.KnownBytes.{Appends, IsAtEnd};
ghost use Rattle.spec.specs.Refusals.{numbered};
ghost use Rattle.plan.specs.Reports.{report_of};
ghost use Rattle.even.specs.Even.{even_of};
ghost use Rattle.evenplan.specs.Text.{plan_line, report_line, line_of, listing_of, text_of};

use plan::{Plan, Report};
use spec::refusal::Refusal;
use std::io::{Read, Write};
use std::{fmt, io};

// A line of the answer, with its end: of a plan, of report `number` of one, or of a refusal.
#[derive(Clone, Copy)]
enum Line {
    Plan { gap: u32, count: u32, total: u32 },
    Report { number: u32, report: Report },
    Refused(Refusal),
}

impl fmt::Display for Line {
    ghost output = { λ line. Some (text_of line) };

    fn fmt<W: fmt::Write>(&self, f: &mut fmt::Formatter<W>) -> fmt::Result {
        match *self {
            Line::Plan { gap, count, total } => {
                writeln!(f, "gap {gap} cycle {count} total {total}")
            }
            Line::Report { number, report } => {
                let Report { minute, size } = report;
                writeln!(f, "{number} {minute} {size}")
            }
            Line::Refused(refusal) => writeln!(f, "refused {}", refusal.number()),
        }
    }
}

// A line while it is put together. No line has more than 49 bytes.
#[derive(Clone, Copy)]
struct Text {
    bytes: [u8; 80],
    length: usize,
    ghost fits: { length ≤ 80 },
}

impl fmt::Write for Text {
    ghost write_str_gives = { λ s bytes t. take t.length t.bytes ≡ take s.length s.bytes ++ bytes };

    // Nothing is held of what does not fit.
    fn write_str(&mut self, s: &str) -> fmt::Result {
        let end = self.length + s.len();
        if self.bytes.len() < end {
            return Err(fmt::Error);
        }
        self.bytes[self.length..end].copy_from_slice(s.as_bytes());
        self.length = end;
        Ok(())
    }
}

// The first line of a plan.
fn plan_line(p: Plan) -> Line
    requires { 1 ≤ p.count }
    ensures { text_of result ≡ plan_line p }
{
    Line::Plan {
        gap: p.period / p.count,
        count: p.count,
        total: p.total,
    }
}

// The line of report i.
fn report_line(p: Plan, i: u32) -> Line
    ensures { text_of result ≡ report_line i (report_of p i) }
{
    match p.report(i) {
        Ok(report) => Line::Report { number: i, report },
        Err(refusal) => Line::Refused(refusal),
    }
}

// Writes line i of the answer to the file that begins with `front`. Nothing else here writes: a text that is no such line cannot be
// handed over.
fn write_line<W: Write>(out: &mut W, front: &[u8], i: u32, line: Line) -> io::Result<()>
    requires { text_of line ≡ line_of (even_of front.now) i }
    ensures { OnOk result (Appends (W.contents out.old) (W.contents out.new) (line_of (even_of front.now) i)) }
{
    // Put together first, so that it goes out by one write: `write!` to the output would hand each number over by itself.
    let mut text = Text {
        bytes: [0; 80],
        length: 0,
    };
    match fmt::Write::write_fmt(&mut text, line) {
        Ok(()) => out.write_all(&text.bytes[..text.length]),
        Err(_) => write!(out, "{line}"),
    }
}

// The plan's line, then those of the reports of one period.
#[tactic(auto, using(crate::proofs::Lines::lines_more))]
fn write_plan<W: Write>(out: &mut W, front: &[u8], p: Plan) -> io::Result<()>
    requires { even_of front.now ≡ Ok p }
    ensures { OnOk result (Appends (W.contents out.old) (W.contents out.new) (listing_of (even_of front.now))) }
{
    write_line(out, front, 0, plan_line(p))?;
    for i in 0..p.count {
        write_line(out, front, i + 1, report_line(p, i))?;
    }
    Ok(())
}

// Reads the front of the input, as many bytes as there are places for, or all of it where it has fewer. Tells how many they are.
// (`read_exact` fails where there are fewer, and `io::copy` to the places doesn't say which bytes stand there then.)
fn read_front<R: Read>(input: &mut R, places: &mut [u8]) -> io::Result<usize>
    ensures most { IfOk result (λ n. n ≤ length places.new) }
    ensures bytes { IfOk result (λ n. IfSome (R.remaining input.old) (λ bytes. take n places.new ≡ take (length places.old) bytes)) }
{
    let mut read: usize = 0;
    while read < places.len() {
        let n = input.read(&mut places[read..])?;
        if n == 0 {
            break;
        }
        read += n;
    }
    Ok(read)
}

// Reads the input to its end.
fn skip_rest<R: Read>(input: &mut R) -> io::Result<()>
    ensures { OnOk result (IsAtEnd (R.remaining input.new)) }
{
    io::copy(input, &mut io::sink())?;
    Ok(())
}

// The answer to every file of which these are the first 26 bytes. The longest specification file has 25, so 26 show that a file is
// too long, whatever follows.
#[tactic(auto, using(crate::proofs::Front::even_of_front))]
fn answer_to(front: &[u8]) -> Result<Plan, Refusal>
    ensures given { numbered result ≡ even_of front.now }
    ensures whole { (file : List ℕ) → front.now ≡ take 26 file → numbered result ≡ even_of file }
{
    even::even_of(front)
}

// Reads a file to its end, and writes the answer to it.
fn answer<R: Read, W: Write>(input: &mut R, out: &mut W) -> io::Result<()>
    ensures whole { OnOk result (IsAtEnd (R.remaining input.new)) }
    ensures listing { OnOk result (IfSome (R.remaining input.old)
        (λ file. Appends (W.contents out.old) (W.contents out.new) (listing_of (even_of file)))) }
{
    let mut bytes = [0u8; 26];
    let n = read_front(input, &mut bytes)?;
    let front = &bytes[..n];
    let found = answer_to(front);
    skip_rest(input)?;
    match found {
        Ok(p) => write_plan(out, front, p),
        Err(refusal) => write_line(out, front, 0, Line::Refused(refusal)),
    }
}

fn main(rt: HostRuntime) -> io::Result<()> {
    answer(&mut rt.stdin(), &mut rt.stdout())
}
