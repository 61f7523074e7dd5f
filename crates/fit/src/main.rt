// Reads a house file from standard input and writes its answer.
#![tactic(auto)]

ghost use Rattle.std.specs.Prelude.{◌<◌, ◌≤◌, length, take, IfOk, IfSome, OnOk};
ghost use Rattle.std.specs.Io.KnownBytes.{Appends, Consumes, IsAtEnd};
ghost use Rattle.run.specs.Answer.{answer_of};

use std::io::{self, Read, Write};

// Reads until buf is full, the input ends or a read fails, since one read may give fewer bytes than there are. Returns how many bytes it put at the start of buf,
// and the failure.
// Stays a `while`: how far a turn comes is the reader's to say.
fn read_full<R: Read>(input: &mut R, buf: &mut [u8]) -> (usize, io::Result<()>)
    ensures fits { result.0 ≤ length buf.new }
    ensures bytes { Consumes (R.remaining input.old) (R.remaining input.new) (take result.0 buf.new) }
    ensures end { OnOk result.1 (result.0 < length buf.new → IsAtEnd (R.remaining input.new)) }
{
    let mut done = 0;
    while done < buf.len() {
        match input.read(&mut buf[done..]) {
            Ok(0) => return (done, Ok(())),
            Ok(n) => done += n,
            Err(error) => return (done, Err(error)),
        }
    }
    (done, Ok(()))
}

// Reads a file and writes its answer, every byte of it and nothing else. Where a read fails, what came before it is taken as the file. The largest file has 8,300
// bytes, so one more shows that a file is longer, and no answer takes more than 24,768.
fn answer<R: Read, W: Write>(input: &mut R, output: &mut W) -> io::Result<()>
    ensures { OnOk result (IfSome (R.remaining input.old) (λ file.
        Appends (W.contents output.old) (W.contents output.new) (answer_of (take 8301 file)))) }
{
    let mut file = [0u8; 8301];
    let (n, read) = read_full(input, &mut file);
    let mut out = [0u8; 24768];
    let m = run::run(&file[..n], &mut out);
    output.write_all(&out[..m])?;
    read
}

// It ends with status 0 whatever fails: a file that did not come whole is refused, and an answer that is cut can be told from an answer.
fn main(rt: HostRuntime) {
    let _ = answer(&mut rt.stdin(), &mut rt.stdout());
}
