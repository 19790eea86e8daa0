#![tactic(auto)]
// Bench figures, faults seen in the field and the table of refusals, through the proved functions. The rows stand in the file stdin;
// each is written as it stands, with the answer beside it, and what is written is held to the file stdout.
mod lend;

ghost use Rattle.std.specs.Prelude.{◌≤◌, IfOk, length};

use posts::Post;
use printing::beside::Answered;
use printing::replies::Outcome;
use std::io;
use std::io::{Read, Write};
use tables::rows;

// How many bytes of rows are read.
const LIMIT: usize = 65_536;

// Reads until the space is full or the input ends, and answers how many bytes it put at the start of the space. Each read is offered
// all that is left of the space: of a message that is longer than what is offered, the rest is lost.
fn read_full<R: Read>(input: &mut R, space: &mut [u8]) -> io::Result<usize>
    ensures { IfOk result (λ n. n ≤ length space.new) }
{
    let mut done = 0;
    while done < space.len() {
        let n = input.read(&mut space[done..])?;
        if n == 0 {
            break;
        }
        done += n;
    }
    Ok(done)
}

// One line: a row is lent the controller that the one before it handed back.
fn turn<W: Write>(out: &mut W, post: Post, line: &[u8]) -> io::Result<Post> {
    let mut space = [0; 1025];
    let row = rows::read(line, &mut space);
    let lent = post.lent(row);
    let answer = lend::answer(row, lent);
    let outcome = Outcome {
        reply: answer.reply,
        unchanged: answer.controller == lent,
    };
    Answered { line, row, outcome }.write(out)?;
    Ok(post.next(row, lent, answer.controller))
}

fn run<W: Write>(out: &mut W, text: &[u8]) -> io::Result<()> {
    let mut post = Post::zeroed();
    for line in text.split_inclusive(|b| *b == b'\n') {
        post = turn(out, post, line.strip_suffix(b"\n").unwrap_or(line))?;
    }
    Ok(())
}

fn main(rt: HostRuntime) -> io::Result<()> {
    let mut space = [0; LIMIT];
    let n = read_full(&mut rt.stdin(), &mut space)?;
    let mut out = rt.stdout();
    run(&mut out, &space[..n])?;
    if n == LIMIT {
        write!(out, "THE ROWS ARE TOO LONG")?;
    }
    Ok(())
}
