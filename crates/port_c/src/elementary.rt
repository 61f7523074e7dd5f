// The elementary functions, for callers outside.
ghost use Rattle.std.specs.Prelude.{◌≡◌};
ghost use Rattle.roots.specs.Root.{root_of};
ghost use Rattle.roots.specs.Hypot.{hypot_of};
ghost use Rattle.exponent.specs.Ln.{ln_of};
ghost use Rattle.exponent.specs.Exp.{exp_of};

#[unsafe(no_mangle)]
pub extern "C" fn port_sqrt(x: f64) -> f64
    ensures { result ≡ root_of x }
{
    port::elementary::port_sqrt(x)
}

#[unsafe(no_mangle)]
pub extern "C" fn port_hypot(x: f64, y: f64) -> f64
    ensures { result ≡ hypot_of x y }
{
    port::elementary::port_hypot(x, y)
}

#[unsafe(no_mangle)]
pub extern "C" fn port_ln(x: f64) -> f64
    ensures { result ≡ ln_of x }
{
    port::elementary::port_ln(x)
}

#[unsafe(no_mangle)]
pub extern "C" fn port_exp(x: f64) -> f64
    ensures { result ≡ exp_of x }
{
    port::elementary::port_exp(x)
}
