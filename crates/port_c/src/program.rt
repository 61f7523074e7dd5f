// The whole program as a function: a house file in, its printed answer out.
ghost use Rattle.std.specs.Prelude.{◌≡◌, ◌≤◌, length};
ghost use Rattle.text.specs.Place.{placed, longest};
ghost use Rattle.run.specs.Answer.{answer_of};

#[unsafe(no_mangle)]
pub extern "C" fn port_run(file: &[u8], out: &mut [u8]) -> usize
    ensures value { result ≡ length (answer_of file.now) }
    ensures out_after { out.new ≡ placed (answer_of file.now) out.old }
    ensures upper_bound { result ≤ longest }
{
    port::program::port_run(file, out)
}
