// Replays stored house files. The arguments are pairs: a house file, and the Rust's answer to it. For each pair, whether the port's answer has the same bytes.
#![tactic(auto)]

ghost use Rattle.std.specs.Prelude.{◌≡◌, true, ◌+◌, ◌≤◌, ◌<◌, length};

use std::env::{Env, FillError};
use std::fs::{self, Files};
use std::io::Read;
use std::str;

// Says `true` only of the same bytes.
fn equal(a: &[u8], b: &[u8]) -> bool
    ensures { result ≡ true → a.now ≡ b.now }
{
    a == b
}

// Stays beside its likes in elementary, as the three functions for arguments do: each public function of a library here has one answer, and what a system gives has none.
// Reads until buf is full, the input ends or a read fails, since one read may give fewer bytes than there are. Returns how many bytes it put at the start of buf.
// Stays a `while`: how far a turn comes is the reader's to say.
fn read_full<R: Read>(input: &mut R, buf: &mut [u8]) -> usize
    ensures { result ≤ length buf.new }
{
    let mut done = 0;
    while done < buf.len() {
        match input.read(&mut buf[done..]) {
            Ok(0) => return done,
            Ok(n) => done += n,
            Err(_) => return done,
        }
    }
    done
}

// How many arguments there are, the program's own name among them.
fn argument_count(rt: &impl Env) -> usize {
    let mut name = [0u8; 4096];
    for i in 0..usize::MAX {
        if let Err(FillError::NotPresent) = rt.arg(i, &mut name) {
            return i;
        }
    }
    usize::MAX
}

// Puts argument i at the start of name and returns its length, or 0 where it is missing or longer than name: no file is called so.
fn argument(rt: &impl Env, i: usize, name: &mut [u8]) -> usize
    ensures { result ≤ length name.new }
{
    rt.arg(i, name).unwrap_or(0)
}

// The name of a file as text: one that is not UTF-8 is said on standard error.
fn text<'a>(rt: &impl Eprint, name: &'a [u8]) -> Option<&'a str> {
    match str::from_utf8(name) {
        Ok(text) => Some(text),
        Err(_) => {
            let _ = eprintln!(rt; "the name of a file is not UTF-8");
            None
        }
    }
}

// Reads the file that argument i names. One that cannot be opened is said on standard error, and counts as empty.
fn load(rt: &(impl Env + Files + Eprint), i: usize, buf: &mut [u8]) -> usize
    ensures { result ≤ length buf.new }
{
    let mut name = [0u8; 4096];
    let length = argument(rt, i, &mut name);
    match text(rt, &name[..length]) {
        None => 0,
        Some(path) => match fs::open(rt, path) {
            Ok(mut file) => read_full(&mut file, buf),
            Err(error) => {
                let _ = eprintln!(rt; "{path}: {error}");
                0
            }
        },
    }
}

fn print_name(rt: &(impl Env + Print), i: usize) {
    let mut name = [0u8; 4096];
    let length = argument(rt, i, &mut name);
    let _ = rt.write_all(&name[..length]);
}

fn one(rt: &(impl Env + Files + Eprint), i: usize, j: usize) -> bool {
    let mut file = [0u8; 8301];
    let n = load(rt, i, &mut file);
    let mut stored = [0u8; 32769];
    let s = load(rt, j, &mut stored);
    let mut out = [0u8; 32768];
    let m = run::run(&file[..n], &mut out);
    equal(&out[..m], &stored[..s])
}

fn say(rt: &impl Print, same: bool) {
    let _ = if same {
        println!(rt; " equal")
    } else {
        println!(rt; " DIFFERS")
    };
}

fn summary(rt: &impl Print, files: usize, same: usize) {
    let _ = println!(rt; "{files} files, {same} equal");
}

// A write that fails is left, so that the files after it are read all the same.
fn main(rt: HostRuntime) {
    let pairs = argument_count(&rt) / 2;
    let mut same = 0;
    for file in 0..pairs {
        let i = 2 * file + 1;
        print_name(&rt, i);
        let equals = one(&rt, i, i + 1);
        say(&rt, equals);
        if equals {
            same += 1;
        }
    }
    summary(&rt, pairs, same);
}
