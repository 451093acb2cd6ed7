ghost use Rattle.std.specs.Prelude.{◌≡◌};
ghost use Rattle.task_file.specs.TaskFile.{stop_of_key};

use first_fault::Stop;
use toml_keys::KeyFault;

/// What is wrong with a task file: it isn't TOML, or one of its keys is at fault.
#[derive(Debug, Drop)]
pub enum TaskFileFault {
    BadToml,
    Key(KeyFault),
}

// The stop of a key, as that of the file.
pub(crate) fn stop_of_key(stop: Stop<KeyFault>) -> Stop<TaskFileFault>
    ensures { result ≡ stop_of_key stop }
{
    match stop {
        Stop::Fault(fault) => Stop::Fault(TaskFileFault::Key(fault)),
        Stop::OutOfMemory => Stop::OutOfMemory,
    }
}
