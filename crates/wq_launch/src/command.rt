//! The command of a start, as it is handed to the system.
ghost use Rattle.std.specs.Prelude.{◌≡◌, ◌++◌, ◌∷◌, [], IfOk, OnOk, length, not, nat_eq};
ghost use Rattle.std.specs.Prelude.{None, Some, codes, if◌then◌else◌};
ghost use Rattle.std.specs.Process.{SameDir, SameEnv, command_args, command_program, makes_pipe};
ghost use Rattle.wq_follow.specs.Start.{var, var_if, vars_of};
ghost use Rattle.wq_follow.specs.Started.{env_data, start_data};
ghost use Rattle.wq_launch.specs.Command.{IsCommandOf, SetsAlso};

use std::alloc::{AllocError, Global};
use std::io;
use std::process::{Command, Stdio};
use wq_base::Text;
use wq_clock::ClockText;
use wq_follow::{Env, Start};

/// The command of a start. Its output is the server's own.
///
/// It gives an error if there is no program, or if memory ran out.
pub(crate) fn command_of(alloc: Global, start: &Start) -> io::Result<Command>
    ensures { IfOk result (λ c. IsCommandOf (start_data start.now) c) }
{
    let Some((program, args)) = start.args.as_slice().split_first() else {
        return Err(io::Error::new(io::ErrorKind::InvalidInput, "there is no program"));
    };
    let mut command = Command::new(alloc, program.as_str())?;
    put_args(&mut command, args)?;
    put_vars(&mut command, &start.env)?;
    command.current_dir(start.env.root.as_str())?;
    command.stdin(input_of(start));
    Ok(command)
}

/// The input of a command: an empty one is `/dev/null`, and else a pipe.
fn input_of(start: &Start) -> Stdio
    ensures { makes_pipe result ≡ not (nat_eq (length start.now.input) 0) }
{
    if start.input.len() == 0 {
        Stdio::null()
    } else {
        Stdio::piped()
    }
}

/// Puts these arguments after the others.
fn put_args(command: &mut Command, args: &[Text]) -> Result<(), AllocError>
    ensures args { OnOk result (command_args command.new ≡ command_args command.old ++ args.now) }
    ensures program { OnOk result (command_program command.new ≡ command_program command.old) }
    ensures env { OnOk result (SameEnv command.old command.new) }
    ensures dir { OnOk result (SameDir command.old command.new) }
{
    for arg in args {
        command.arg(arg.as_str())?;
    }
    Ok(())
}

/// Sets the variables of a start over those of the server.
fn put_vars(command: &mut Command, env: &Env) -> Result<(), AllocError>
    ensures { OnOk result (SetsAlso (vars_of (env_data env.now)) command.old command.new) }
{
    put_var(command, "WATCHMAN_CLOCK", env.clock.as_str())?;
    put_overflow(command, env.overflow)?;
    put_var(command, "WATCHMAN_ROOT", env.root.as_str())?;
    put_since(command, &env.since)?;
    put_var(command, "WATCHMAN_TRIGGER", env.trigger.as_str())
}

/// Sets the variable that says that a list was cut, if one was.
fn put_overflow(command: &mut Command, overflow: bool) -> Result<(), AllocError>
    ensures { OnOk result (SetsAlso (var_if (codes "WATCHMAN_FILES_OVERFLOW")
        (if overflow then Some (codes "true") else None)) command.old command.new) }
{
    if !overflow {
        return Ok(());
    }
    put_var(command, "WATCHMAN_FILES_OVERFLOW", "true")
}

/// Sets the variable with the clock id of the batch before, if there was one.
fn put_since(command: &mut Command, since: &Option<ClockText>) -> Result<(), AllocError>
    ensures { OnOk result (SetsAlso (var_if (codes "WATCHMAN_SINCE") since.now)
        command.old command.new) }
{
    match since {
        Some(clock) => put_var(command, "WATCHMAN_SINCE", clock.as_str()),
        None => Ok(()),
    }
}

/// Sets a variable.
fn put_var(command: &mut Command, key: &str, value: &str) -> Result<(), AllocError>
    ensures { OnOk result (SetsAlso (var key.now value.now ∷ []) command.old command.new) }
{
    command.env(key, value)?;
    Ok(())
}
