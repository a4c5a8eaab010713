//! The arguments of a program.
ghost use Rattle.std.specs.Prelude.{◌≢◌, IfErr, IfOk};
ghost use Rattle.std.specs.IoError.{error_kind};
ghost use Rattle.std.specs.declared.io.ErrorKind.TheVariants.{OutOfMemory as MemoryKind};

use super::{OutOfMemory, push, refused};
use std::rt::Env;
use std::{env, io};

/// The arguments of the program without its own name, or why the system doesn't give them.
pub fn arguments_of<R: Env + AllocGlobal>(
    rt: &R,
) -> Result<Result<Vec<String>, io::Error>, OutOfMemory>
    // Such an error isn't want of memory.
    ensures { IfOk result (λ outcome. IfErr outcome (λ error. error_kind error ≢ MemoryKind)) }
{
    match env::args(rt) {
        Ok(arguments) => {
            let mut words = Vec::new(rt.alloc());
            for word in arguments.skip(1) {
                push(&mut words, word)?;
            }
            Ok(Ok(words))
        }
        Err(error) => if error.kind() == io::ErrorKind::OutOfMemory {
            Err(refused())
        } else {
            Ok(Err(error))
        },
    }
}
