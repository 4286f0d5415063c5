//! The local that a declaration touches.
ghost use Rattle.std.specs.Prelude.{◌≡◌};
ghost use Rattle.cs_cfg.specs.Working as working;

/// Returns a local if it is a scalar.
pub fn if_local(scalar: bool, declaration: u32) -> Option<u32>
    ensures { result ≡ working.if_local scalar declaration }
{
    if scalar { Some(declaration) } else { None }
}
