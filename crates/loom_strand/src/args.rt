//! The arguments of a call.
ghost use Rattle.std.specs.Prelude.{◌≡◌, ◌≤◌, length};
ghost use Rattle.loom_lang.specs.Limits.{param_limit};

use loom_trace::row::Args;

/// The arguments that a slice has.
pub(crate) fn args_of(values: &[i64]) -> Args
    requires { length values.now ≤ param_limit }
    ensures { result ≡ values.now }
{
    let mut args = Args::none();
    'values: for v in values {
        args.push(*v);
    }
    args
}
