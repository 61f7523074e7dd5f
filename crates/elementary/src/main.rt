// Replays lists of outside answers. Each file that the arguments name has lines of a function's name (sqrt, hypot, ln, exp), its arguments and its answer, each of
// these 16 hexadecimal digits; of each file the program writes how many lines have the answer that the function gives, and of how many, if not of all.
#![tactic(auto)]

ghost use Rattle.std.specs.Prelude.{◌≤◌, length};

use std::env::{Env, FillError};
use std::fs::{self, Files};
use std::io::Read;
use std::str;

// The line so far: its name's letters, its spaces, and its last three words; and how many lines before it there were, and how many of them agreed.
#[derive(Clone, Copy, Default)]
struct Reading {
    name: u64,
    spaces: u64,
    x: u64,
    y: u64,
    z: u64,
    lines: u64,
    equal: u64,
}

fn more(n: u64) -> u64 {
    if n < 1_000_000_000 { n + 1 } else { n }
}

#[derive(Clone, Copy)]
enum Function {
    Sqrt,
    Hypot,
    Ln,
    Exp,
}

// A name is its letters, as bytes.
fn function_of(name: u64) -> Option<Function> {
    match name {
        0x7371_7274 => Some(Function::Sqrt),
        0x68_7970_6f74 => Some(Function::Hypot),
        0x6c6e => Some(Function::Ln),
        0x65_7870 => Some(Function::Exp),
        _ => None,
    }
}

// Whether the line that ends here has the function's answer: behind the name a space and a word for each argument, and for the answer.
fn agrees(s: Reading) -> bool {
    let x = bits::f64_of(s.x);
    let y = bits::f64_of(s.y);
    match function_of(s.name) {
        Some(Function::Sqrt) => s.spaces == 2 && bits::bits_of(roots::sqrt(y)) == s.z,
        Some(Function::Hypot) => s.spaces == 3 && bits::bits_of(roots::hypot(x, y)) == s.z,
        Some(Function::Ln) => s.spaces == 2 && bits::bits_of(exponent::ln(y)) == s.z,
        Some(Function::Exp) => s.spaces == 2 && bits::bits_of(exponent::exp(y)) == s.z,
        None => false,
    }
}

// The line ends, and the next begins.
fn ended(s: Reading) -> Reading {
    Reading {
        lines: more(s.lines),
        equal: if agrees(s) { more(s.equal) } else { s.equal },
        ..Reading::default()
    }
}

fn digit(c: u8) -> u64 {
    if c < b'a' {
        u64::from(c % 16)
    } else {
        u64::from(c % 16 + 9)
    }
}

// Of a name the last eight letters count, of a word the last sixteen digits.
fn fed(s: Reading, c: u8) -> Reading {
    if c == b'\n' {
        return ended(s);
    }
    if c == b' ' {
        return Reading {
            spaces: more(s.spaces),
            x: s.y,
            y: s.z,
            z: 0,
            ..s
        };
    }
    if s.spaces == 0 {
        return Reading {
            name: (s.name << 8) | u64::from(c),
            ..s
        };
    }
    Reading {
        z: (s.z << 4) | (digit(c) % 16),
        ..s
    }
}

fn all_fed(start: Reading, part: &[u8]) -> Reading {
    part.iter().fold(start, |s, c| fed(s, *c))
}

// Stays beside its likes in vectors, as the three functions for arguments do: each public function of a library here has one answer, and what a system gives has none.
// Reads until buf is full, the input ends or a read fails, since one read may give fewer bytes than there are. Returns how many bytes it put at the start of buf.
// Stays a `while`: how far a turn comes is the reader's to say.
fn read_full<R: Read>(input: &mut R, buf: &mut [u8]) -> usize
    ensures { result ≤ length buf.new }
{
    let mut done = 0;
    while done < buf.len() {
        match input.read(&mut buf[done..]) {
            Ok(0) => return done,
            Ok(n) => done += n,
            Err(_) => return done,
        }
    }
    done
}

// Reads to the end, 65,536 bytes at a time.
fn read_through<R: Read>(input: &mut R) -> Reading {
    let mut s = Reading::default();
    let mut part = [0u8; 65536];
    for _ in 0..1_000_000 {
        let n = read_full(input, &mut part);
        if n == 0 {
            break;
        }
        s = all_fed(s, &part[..n]);
    }
    s
}

// How many arguments there are, the program's own name among them.
fn argument_count(rt: &impl Env) -> usize {
    let mut name = [0u8; 4096];
    for i in 0..usize::MAX {
        if let Err(FillError::NotPresent) = rt.arg(i, &mut name) {
            return i;
        }
    }
    usize::MAX
}

// Puts argument i at the start of name and returns its length, or 0 where it is missing or longer than name: no file is called so.
fn argument(rt: &impl Env, i: usize, name: &mut [u8]) -> usize
    ensures { result ≤ length name.new }
{
    rt.arg(i, name).unwrap_or(0)
}

// The name of a file as text: one that is not UTF-8 is said on standard error.
fn text<'a>(rt: &impl Eprint, name: &'a [u8]) -> Option<&'a str> {
    match str::from_utf8(name) {
        Ok(text) => Some(text),
        Err(_) => {
            let _ = eprintln!(rt; "the name of a file is not UTF-8");
            None
        }
    }
}

// Writes a line on the file that argument i names. One that cannot be opened is said on standard error.
fn file(rt: &(impl Env + Files + Print + Eprint), i: usize) {
    let mut name = [0u8; 4096];
    let length = argument(rt, i, &mut name);
    if let Some(path) = text(rt, &name[..length]) {
        match fs::open(rt, path) {
            Ok(mut file) => {
                let s = read_through(&mut file);
                say(rt, path, s);
            }
            Err(error) => {
                let _ = eprintln!(rt; "{path}: {error}");
            }
        }
    }
}

fn say(rt: &impl Print, path: &str, s: Reading) {
    let _ = if s.equal < s.lines {
        println!(rt; "{path} {} equal of {}", s.equal, s.lines)
    } else {
        println!(rt; "{path} {} equal", s.equal)
    };
}

// A write that fails is left, so that the files after it are read all the same.
fn main(rt: HostRuntime) {
    let n = argument_count(&rt);
    for i in 1..n {
        file(&rt, i);
    }
}
