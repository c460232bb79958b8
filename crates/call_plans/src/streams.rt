// What the streams of attach and exec start share.
ghost use Rattle.std.specs.Prelude.{◌≡◌};
ghost use Rattle.machine_model.specs.LogStream.{some_if};

/// The run that standard input goes to, where it is open.
pub fn run_if(is_open: bool, run: u64) -> Option<u64>
    ensures { result ≡ some_if is_open run }
{
    if is_open { Some(run) } else { None }
}
