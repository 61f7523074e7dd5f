// Which interface this library has, so that a caller can refuse one that it was not written for.
ghost use Rattle.std.specs.Prelude.{◌≡◌};
ghost use Rattle.port.specs.Abi.{abi_number};

#[unsafe(no_mangle)]
pub extern "C" fn port_abi() -> u32
    ensures { result ≡ abi_number }
{
    port::abi::port_abi()
}
