// The whole program as a function: a house file in, its printed answer out.
ghost use Rattle.std.specs.Prelude.{◌≡◌, ◌≤◌, length};
ghost use Rattle.text.specs.Place.{placed, longest};
ghost use Rattle.run.specs.Answer.{answer_of};

// How many bytes the answer takes. They stand at the front of `out` where it has room for them all, else it is untouched. 24,768 are enough for every answer.
pub fn port_run(file: &[u8], out: &mut [u8]) -> usize
    ensures value { result ≡ length (answer_of file.now) }
    ensures out_after { out.new ≡ placed (answer_of file.now) out.old }
    ensures upper_bound { result ≤ longest }
{
    run::run(file, out)
}
