//! The words of a call, from the arguments of the program.

ghost use Rattle.std.specs.Prelude.{◌≡◌, ◌≢◌, ◌↔◌, [], IfOk, IfErr, IsErr};
ghost use Rattle.std.specs.IoError.{error_kind};
ghost use Rattle.std.specs.declared.io.ErrorKind.TheVariants.{OutOfMemory};

use ds_value::NoMemory;
use std::alloc::Global;
use std::env::Args;
use std::io;

/// The arguments behind the program's name. Arguments that aren't text give no words, which are no
/// command.
pub fn gather(alloc: Global, args: io::Result<Args<Global>>) -> Result<Vec<String>, NoMemory>
    ensures no_text { IfErr args (λ error. error_kind error ≢ OutOfMemory → IfOk result (λ words. words.items ≡ [])) }
    ensures memory { IfErr args (λ error. IsErr result ↔ (error_kind error ≡ OutOfMemory)) }
{
    let mut words = Vec::new(alloc);
    match args {
        Ok(args) => {
            for word in args.skip(1) {
                words.push(word)?;
            }
            Ok(words)
        }
        Err(error) if error.kind() == io::ErrorKind::OutOfMemory => Err(NoMemory),
        Err(_) => Ok(words),
    }
}
